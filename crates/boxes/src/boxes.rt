// What is found out once of each triangle of a list, and not once of each pair. Its box, which tells of most pairs of a large bed that they are
// apart: six numbers, the least x, y and z of the corners and then the greatest. And its normal, three numbers, and its plane, three doubles, which
// the pair test asks for.
ghost use Rattle.std.specs.Prelude.{◌≡◌, ℕ, ◌+◌, ◌*◌, ◌≤◌, ◌<◌, length};
ghost use Rattle.boxes.specs.Triangles.{triangles, nine};
ghost use Rattle.boxes.specs.Rows.{row_at, Takes, Wrote};
ghost use Rattle.boxes.specs.Boxes.{box_of, apart_along, boxes_apart, Boxed, Sound, Normals, Planes};

use kernel::{put_normal, put_plane};

// Writes the box of a triangle.
fn put_box(bounds: &mut [i32], corners: &[i32])
    requires { (length bounds.old ≡ 6) × (length corners.now ≡ 9) }
    ensures { bounds.new ≡ box_of corners.now }
{
    // Counted, since each coordinate is read at three places and written at two.
    for c in 0..3 {
        bounds[c] = corners[c].min(corners[c + 3]).min(corners[c + 6]);
        bounds[c + 3] = corners[c].max(corners[c + 3]).max(corners[c + 6]);
    }
}

// Writes a row of so many numbers for each triangle of a list, one after the other. The rows are counted: of what `chunks_exact_mut` lends only the length
// is known once it is written.
fn put_rows<X, F: Fn(&mut [X], &[i32])>(rows: &mut [X], width: usize, numbers: &[i32], put: F)
    requires room { width * triangles numbers.now ≤ length rows.old }
    requires takes { Takes (F.pre put) width numbers.now }
    ensures { (i : ℕ) → i < triangles numbers.now → Wrote (F.post put) (nine i numbers.now) (row_at width i rows.new) }
{
    for (i, corners) in numbers.chunks_exact(9).enumerate() {
        let at = width * i;
        put(&mut rows[at..at + width], corners);
    }
}

// Writes the boxes of all triangles of a list.
pub fn put_boxes(boxes: &mut [i32], numbers: &[i32])
    requires { 6 * triangles numbers.now ≤ length boxes.old }
    ensures { Boxed numbers.now boxes.new }
{
    put_rows(boxes, 6, numbers, |row, corners| put_box(row, corners));
}

// Writes the normals of all triangles of a list.
pub fn put_normals(normals: &mut [i64], numbers: &[i32])
    requires { Sound numbers.now × (3 * triangles numbers.now ≤ length normals.old) }
    ensures { Normals numbers.now normals.new }
{
    put_rows(normals, 3, numbers, |row, corners| put_normal(row, corners));
}

// Writes the planes of all triangles of a list, in doubles.
pub fn put_planes(planes: &mut [f64], numbers: &[i32])
    requires { Sound numbers.now × (3 * triangles numbers.now ≤ length planes.old) }
    ensures { Planes numbers.now planes.new }
{
    put_rows(planes, 3, numbers, |row, corners| put_plane(row, corners));
}

// Whether one box ends before the other begins, at coordinate c.
fn apart_along(c: usize, first: &[i32], second: &[i32]) -> bool
    requires { (c < 3) × (length first.now ≡ 6) × (length second.now ≡ 6) }
    ensures { result ≡ apart_along c first.now second.now }
{
    (first[c + 3] < second[c]) || (second[c + 3] < first[c])
}

// Whether they do at some coordinate. Written out: three in a row, with nothing to count.
pub fn boxes_apart(first: &[i32], second: &[i32]) -> bool
    requires { (length first.now ≡ 6) × (length second.now ≡ 6) }
    ensures { result ≡ boxes_apart first.now second.now }
{
    apart_along(0, first, second) || apart_along(1, first, second) || apart_along(2, first, second)
}
