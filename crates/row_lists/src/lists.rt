// The rows of a part, listed by their numbers.

ghost use Rattle.std.specs.Prelude.{◌≡◌, ◌≤◌, length, take};

use part_words::MOST_ROWS;

// The rows whose vertices have a distance to the vertex asked at, the first `known` of `places`, each with its distance in `near`; and the rows whose distance is
// asked for, the first `count` of `asked`.
#[derive(Clone, Copy)]
pub struct RowLists {
    pub places: [u32; MOST_ROWS],
    pub near: [u32; MOST_ROWS],
    pub known: usize,
    pub asked: [u32; MOST_ROWS],
    pub count: usize,
    pub ghost few: { (known ≤ 128) × (count ≤ 128) },
}

impl RowLists {
    // The numbers of the rows whose vertices have a distance.
    pub fn places(&self) -> &[u32]
        ensures { (result.now ≡ take self.now.known self.now.places) × (length result.now ≡ self.now.known) }
    {
        &self.places[..self.known]
    }

    // Their distances.
    pub fn near(&self) -> &[u32]
        ensures { (result.now ≡ take self.now.known self.now.near) × (length result.now ≡ self.now.known) }
    {
        &self.near[..self.known]
    }

    // The numbers of the rows whose distance is asked for.
    pub fn asked(&self) -> &[u32]
        ensures { (result.now ≡ take self.now.count self.now.asked) × (length result.now ≡ self.now.count) }
    {
        &self.asked[..self.count]
    }
}
