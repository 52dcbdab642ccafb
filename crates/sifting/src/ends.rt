// The six ends of a box (specs/Ends.antt): the least x, y and z, and the greatest, mirrored on the other side of zero, so that one comparison serves all
// six. A number mirrored is less by one than its opposite, which the least number doesn't have.
ghost use Rattle.std.specs.Prelude.{◌≡◌, ◌+◌, ◌*◌, ◌≤◌, ◌<◌, length};
ghost use Rattle.boxes.specs.Boxes.{six};
ghost use Rattle.sifting.specs.Ends.{end_of, reach_of};

// Where box j of a list of boxes begins at end e.
pub fn end_at(boxes: &[i32], e: usize, j: usize) -> i32
    requires { (e < 6) × (6 * j + 6 ≤ length boxes.now) }
    ensures { result ≡ end_of e (six j boxes.now) }
{
    let number = boxes[6 * j + e];
    if e < 3 { number } else { !number }
}

// How far a box reaches at end e.
pub fn reach_at(bounds: &[i32], e: usize) -> i32
    requires { (e < 6) × (length bounds.now ≡ 6) }
    ensures { result ≡ reach_of e bounds.now }
{
    if e < 3 { bounds[e + 3] } else { !bounds[e - 3] }
}
