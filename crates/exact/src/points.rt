// Points of the grid, rows of a determinant, normals and triangles. A point lies on the grid, and no difference of two points and no normal is larger than
// the grid allows: that is kept with each value, so that nobody has to ask it again.
// Points, rows and normals are three types, so that none is taken for another: each keeps its own bound, `limit`, `difference_size` or `minor_size`.
ghost use Rattle.std.specs.Prelude.{[], ◌∷◌};
ghost use Rattle.exact.specs.Grid.{limit};
ghost use Rattle.exact.specs.Sizes.{Sized, difference_size, minor_size};

// A point of the plane.
#[derive(Clone, Copy)]
pub struct PlanePoint {
    pub x: i64,
    pub y: i64,
    pub ghost on_grid: { Sized limit (x ∷ y ∷ []) },
}

// A point of space.
#[derive(Clone, Copy)]
pub struct SpacePoint {
    pub x: i64,
    pub y: i64,
    pub z: i64,
    pub ghost on_grid: { Sized limit (x ∷ y ∷ z ∷ []) },
}

// A difference of two points of space, a row of a determinant.
#[derive(Clone, Copy)]
pub struct Row {
    pub x: i64,
    pub y: i64,
    pub z: i64,
    pub ghost of_grid: { Sized difference_size (x ∷ y ∷ z ∷ []) },
}

// The normal of a plane through three points of the grid, or a vector of its size.
#[derive(Clone, Copy)]
pub struct Normal {
    pub x: i64,
    pub y: i64,
    pub z: i64,
    pub ghost of_grid: { Sized minor_size (x ∷ y ∷ z ∷ []) },
}

// Three numbers of any size.
#[derive(Clone, Copy)]
pub struct Vector {
    pub x: i64,
    pub y: i64,
    pub z: i64,
}

// A triangle of the plane, or of space.
#[derive(Clone, Copy)]
pub struct Triangle<P> {
    pub p: P,
    pub q: P,
    pub r: P,
}
