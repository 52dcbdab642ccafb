// The places of a word, a bit each: what a stage leaves of them, and the triangles of two lists that are meant by one.
ghost use Rattle.std.specs.Prelude.{◌≡◌, ◌+◌, ◌*◌, ◌≤◌, ◌<◌, length};
ghost use Rattle.boxes.specs.Triangles.{triangles};
ghost use Rattle.boxes.specs.Boxes.{three};
ghost use Rattle.deciding.specs.Places.{index_of, lined, turned};

// What a stage leaves: the pairs that it keeps, and those that have to be asked otherwise.
#[derive(Clone, Copy)]
pub struct Left {
    pub kept: u64,
    pub other: u64,
}

// A list of triangles, their normals and, unless the numbers are small, their planes in doubles. Rows of numbers, for the reason that `kept_standing` of
// crate `space` gives.
#[derive(Clone, Copy)]
pub struct Bed<'a> {
    pub numbers: &'a [i32],
    pub normals: &'a [i64],
    pub planes: &'a [f64],
}

// The triangles of a list that the places of a word mean: from `from` on a triangle later for each place, or the same for all, as the step is 1 or 0.
#[derive(Clone, Copy)]
pub struct Row<'a> {
    pub bed: Bed<'a>,
    pub from: usize,
    pub step: usize,
}

// The pairs that the places of a word mean, a triangle of each of two rows, and whether all numbers of both lists are small. The flag is found once for two lists,
// and asked by each word.
#[derive(Clone, Copy)]
pub struct Pairs<'a> {
    pub narrow: bool,
    pub first: Row<'a>,
    pub second: Row<'a>,
}

impl<'a> Row<'a> {
    // Where the triangle of a place stands in the list.
    fn index_of(&self, place: u32) -> usize
        requires { index_of self.now place < triangles self.now.bed.numbers.now }
        ensures { result ≡ index_of self.now place }
    {
        self.from + self.step * place as usize
    }

    // Its nine numbers. Numbers, normals and planes each have their own row: their clauses ask for another length each.
    pub fn corners(&self, place: u32) -> &'a [i32]
        requires { index_of self.now place < triangles self.now.bed.numbers.now }
        ensures { result.now ≡ lined self.now place }
    {
        let at = 9 * self.index_of(place);
        &self.bed.numbers[at..at + 9]
    }

    // Its normal.
    pub fn normal(&self, place: u32) -> &'a [i64]
        requires { (index_of self.now place < triangles self.now.bed.numbers.now) × (3 * index_of self.now place + 3 ≤ length self.now.bed.normals.now) }
        ensures { result.now ≡ three (index_of self.now place) self.now.bed.normals.now }
    {
        let at = 3 * self.index_of(place);
        &self.bed.normals[at..at + 3]
    }

    // Its plane.
    pub fn plane(&self, place: u32) -> &'a [f64]
        requires { (index_of self.now place < triangles self.now.bed.numbers.now) × (3 * index_of self.now place + 3 ≤ length self.now.bed.planes.now) }
        ensures { result.now ≡ three (index_of self.now place) self.now.bed.planes.now }
    {
        let at = 3 * self.index_of(place);
        &self.bed.planes[at..at + 3]
    }
}

impl<'a> Pairs<'a> {
    // The same pairs, the other triangle first.
    pub fn turned(&self) -> Pairs<'a>
        ensures { result ≡ turned self.now }
    {
        Pairs {
            narrow: self.narrow,
            first: self.second,
            second: self.first,
        }
    }
}
