// Whether the shell of triangles is open: some directed edge does not occur once, or its reverse does not. Triangles stand in a list, nine numbers
// each.
ghost use Rattle.std.specs.Prelude.{◌≡◌, not, ◌≤◌, ◌/◌, length, [], ◌∷◌};
ghost use Rattle.shape.specs.Points.{point_at};
ghost use Rattle.shape.specs.Lists.{some, held_by};
ghost use Rattle.shape.specs.Shells.{same_point, reverse, edges_of, occurs, is_closed};
ghost use Rattle.shape.specs.TriangleLists.{triangle_of, triangles_in, triangles_of};
ghost use Rattle.shells.specs.Opening.{corner, directed, edge_open};

// A corner of a triangle.
#[derive(Clone, Copy)]
struct Corner {
    x: i32,
    y: i32,
    z: i32,
}

// A directed edge: where it begins, and where it ends.
#[derive(Clone, Copy)]
struct Edge {
    from: Corner,
    to: Corner,
}

impl Edge {
    fn reverse(self) -> Edge
        ensures { directed result ≡ reverse (directed self) }
    {
        Edge {
            from: self.to,
            to: self.from,
        }
    }
}

// The edges of a triangle, as a tuple: gone through as an array they took longer.
fn edges_of(triangle: &[i32; 9]) -> (Edge, Edge, Edge)
    ensures { directed result.0 ∷ directed result.1 ∷ directed result.2 ∷ [] ≡ edges_of (triangle_of triangle.now) }
{
    let [ax, ay, az, bx, by, bz, cx, cy, cz] = *triangle;
    let a = Corner {
        x: ax,
        y: ay,
        z: az,
    };
    let b = Corner {
        x: bx,
        y: by,
        z: bz,
    };
    let c = Corner {
        x: cx,
        y: cy,
        z: cz,
    };
    (
        Edge { from: a, to: b },
        Edge { from: b, to: c },
        Edge { from: c, to: a },
    )
}

// Whether the corner that begins at a position of a triangle is this one. The numbers are read in turn, the last first, and mostly that one tells:
// edges that are built first and compared by `==` are compared whole, and a question of two shells took up to 2.4 times as long.
fn is_at(triangle: &[i32; 9], at: usize, wanted: Corner) -> bool
    requires { at ≤ 6 }
    ensures { result ≡ same_point (corner wanted) (point_at 3 at triangle.now) }
{
    wanted.z == triangle[at + 2] && wanted.y == triangle[at + 1] && wanted.x == triangle[at]
}

// How often an edge occurs in a triangle.
fn times_in(triangle: &[i32; 9], edge: Edge) -> usize
    ensures { result ≡ occurs (directed edge) (edges_of (triangle_of triangle.now)) }
{
    let first = is_at(triangle, 0, edge.from) && is_at(triangle, 3, edge.to);
    let second = is_at(triangle, 3, edge.from) && is_at(triangle, 6, edge.to);
    let third = is_at(triangle, 6, edge.from) && is_at(triangle, 0, edge.to);
    first as usize + second as usize + third as usize
}

// How often it occurs in all.
fn times(triangles: &[[i32; 9]], edge: Edge) -> usize
    ensures { result ≡ occurs (directed edge) (held_by edges_of (triangles_of triangles.now)) }
{
    triangles
        .iter()
        .map(|triangle| times_in(triangle, edge))
        .sum()
}

// Whether an edge does not occur once, or its reverse does not.
fn edge_open(triangles: &[[i32; 9]], edge: Edge) -> bool
    ensures { result ≡ edge_open (triangles_of triangles.now) (directed edge) }
{
    times(triangles, edge) != 1 || times(triangles, edge.reverse()) != 1
}

// Whether a triangle has such an edge.
fn has_open_edge(triangles: &[[i32; 9]], triangle: &[i32; 9]) -> bool
    ensures { result ≡ some (edge_open (triangles_of triangles.now)) (edges_of (triangle_of triangle.now)) }
{
    let (first, second, third) = edges_of(triangle);
    edge_open(triangles, first) || edge_open(triangles, second) || edge_open(triangles, third)
}

// Whether the shell of the triangles in a list is open.
pub fn is_open(numbers: &[i32]) -> bool
    ensures { result ≡ not (is_closed (triangles_in (length numbers.now / 9) numbers.now)) }
{
    let (triangles, _) = numbers.as_chunks::<9>();
    triangles
        .iter()
        .any(|triangle| has_open_edge(triangles, triangle))
}
