// Corners of triangles inside the shell of others. Triangles stand in a list, nine numbers each.
ghost use Rattle.std.specs.Prelude.{◌≡◌, ◌/◌, length};
ghost use Rattle.std.specs.List.{All};
ghost use Rattle.shape.specs.Lists.{some};
ghost use Rattle.shape.specs.InsideTest.{odd_ahead, corner_in};
ghost use Rattle.shape.specs.TriangleLists.{triangle_of, triangles_in, triangles_of};
ghost use Rattle.exact.specs.Grid.{Ready};
ghost use Rattle.exact.specs.Sizes.{OnGrid};
ghost use Rattle.exact.specs.Vectors.{spatial};

use crate::ahead::triangle_ahead;
use exact::SpacePoint;
use space::space_triangle;

// Whether an odd number of triangles lies ahead of p.
fn odd_ahead(triangles: &[[i32; 9]], p: SpacePoint) -> bool
    requires { All (Ready 9) triangles.now }
    ensures { result ≡ odd_ahead (spatial p) (triangles_of triangles.now) }
{
    let ahead = triangles
        .iter()
        .filter(|t| triangle_ahead(space_triangle(&t[..]), p))
        .count();
    ahead % 2 == 1
}

// Whether some corner of a triangle is inside the shell of others.
fn has_inside(triangle: &[i32; 9], others: &[[i32; 9]]) -> bool
    requires { Ready 9 triangle.now × All (Ready 9) others.now }
    ensures { result ≡ some (λ a. odd_ahead a (triangles_of others.now)) (triangle_of triangle.now) }
{
    let t = space_triangle(&triangle[..]);
    odd_ahead(others, t.p) || odd_ahead(others, t.q) || odd_ahead(others, t.r)
}

// Whether some corner of the triangles in a list is inside the shell of those in another.
pub fn corner_inside(triangles: &[i32], others: &[i32]) -> bool
    requires { OnGrid triangles.now × OnGrid others.now }
    ensures { result ≡ corner_in (triangles_in (length triangles.now / 9) triangles.now) (triangles_in (length others.now / 9) others.now) }
{
    let (triangles, _) = triangles.as_chunks::<9>();
    let (others, _) = others.as_chunks::<9>();
    triangles
        .iter()
        .any(|triangle| has_inside(triangle, others))
}
