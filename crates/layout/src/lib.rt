// Where the words of a memory stand: how many words a record has, and which of them says what. `specs/Layout.antt` names the same numbers for
// contracts, and each section's start. Words that have no name are 0, room for what is still to come. Words are told apart by numbers and no enum: they are the memory's format.
#![tactic(auto)]

ghost use Rattle.std.specs.Prelude.{◌≡◌, ℕ, ◌+◌, ◌*◌, ◌^◌, ◌≤◌, ◌<◌};
ghost use Rattle.std.proofs.Common.{lit≤};
ghost use Rattle.words.specs.Lists.{word};
ghost use Rattle.layout.specs.Layout.{words_in_part, words_in_vertex, words_in_road, words_in_van, words_in_row, part_word, row_word};

use cells::word;

// A kind of record, of which a section has one after the other: how many words each has. Each kind names them itself too, so that who writes `PartRecord::WORDS` need not know the trait.
pub trait Record {
    const WORDS: usize;

    ghost WORDS: { ℕ };

    ghost few: { WORDS ≤ 8 };
}

// Word w of record i of those that start at `first`.
pub fn record_word<R: Record>(mem: &[u32], first: usize, i: u32, w: usize) -> u32
    requires { (first < 2 ^ 63) × (w < R.WORDS) }
    ensures { result ≡ word mem.now (first + R.WORDS * i + w) }
{
    word(mem, first + R::WORDS * i as usize + w)
}

// The head: the memory's first words.
#[derive(Drop)]
pub struct HeadRecord {}

impl HeadRecord {
    pub const WORDS: usize = 64;

    // What word MARK shows in an opened memory.
    pub const OPENED: u32 = 20481;

    pub const MARK: usize = 0;

    pub const USED: usize = 1;

    pub const VERTICES: usize = 2;

    pub const ROADS: usize = 3;

    pub const PARTS: usize = 4;

    pub const COUNT: usize = 5;
}

#[derive(Drop)]
pub struct PartRecord {}

impl Record for PartRecord {
    const WORDS: usize = PartRecord::WORDS;

    ghost WORDS = { words_in_part };

    ghost few = { lit≤ tt };
}

impl PartRecord {
    pub const WORDS: usize = 8;

    pub const PARENT: usize = 0;

    // How many rows.
    pub const SIZE: usize = 1;

    // Where its first row stands, and its table.
    pub const ROWS: usize = 2;

    pub const TABLE: usize = 3;

    // Its first child, 0 for a leaf; the next part with the same parent, 0 for the last.
    pub const CHILD: usize = 4;

    pub const SIBLING: usize = 5;
}

#[derive(Drop)]
pub struct VertexRecord {}

impl Record for VertexRecord {
    const WORDS: usize = VertexRecord::WORDS;

    ghost WORDS = { words_in_vertex };

    ghost few = { lit≤ tt };
}

impl VertexRecord {
    pub const WORDS: usize = 8;

    pub const LEAF: usize = 0;

    // Its place among the vertices of its leaf.
    pub const PLACE: usize = 1;

    // Its first road out.
    pub const ROADS: usize = 2;

    // Links to the first road that ends there, and to the first free van that heads for it.
    pub const INTO: usize = 3;

    pub const VANS: usize = 4;

    // What it shows of itself: two words, as the first two of a row.
    pub const ITSELF: usize = 5;
}

#[derive(Drop)]
pub struct RoadRecord {}

impl Record for RoadRecord {
    const WORDS: usize = RoadRecord::WORDS;

    ghost WORDS = { words_in_road };

    ghost few = { lit≤ tt };
}

impl RoadRecord {
    pub const WORDS: usize = 4;

    pub const FROM: usize = 0;

    pub const TO: usize = 1;

    pub const WEIGHT: usize = 2;

    // Link to the next road that ends at the same vertex.
    pub const NEXT: usize = 3;
}

#[derive(Drop)]
pub struct VanRecord {}

impl Record for VanRecord {
    const WORDS: usize = VanRecord::WORDS;

    ghost WORDS = { words_in_van };

    ghost few = { lit≤ tt };
}

impl VanRecord {
    pub const WORDS: usize = 8;

    // How many vans have a record: their numbers are below it.
    pub const VANS: u32 = 1024;

    pub const STATE: usize = 0;

    pub const ROAD: usize = 1;

    pub const OFFSET: usize = 2;

    pub const STAMP: usize = 3;

    // Link to the next free van that heads for the same vertex.
    pub const NEXT: usize = 4;
}

#[derive(Drop)]
pub struct RowRecord {}

impl Record for RowRecord {
    const WORDS: usize = RowRecord::WORDS;

    ghost WORDS = { words_in_row };

    ghost few = { lit≤ tt };
}

impl RowRecord {
    pub const WORDS: usize = 4;

    // The nearest active vertex, and its distance.
    pub const VERTEX: usize = 0;

    pub const DISTANCE: usize = 1;

    // The row's own vertex + CHILD × the child that holds it.
    pub const OWN: usize = 2;

    pub const CHILD: u32 = 65536;

    // Where the same is shown one part further down.
    pub const BELOW: usize = 3;
}

// Word w of part p.
pub fn part_word(mem: &[u32], p: u32, w: usize) -> u32
    requires { w < words_in_part }
    ensures { result ≡ part_word mem.now p w }
{
    record_word::<PartRecord>(mem, HeadRecord::WORDS, p, w)
}

// Word w of row i of the rows that start at `first`.
pub fn row_word(mem: &[u32], first: u32, i: u32, w: usize) -> u32
    requires { w < words_in_row }
    ensures { result ≡ row_word mem.now first i w }
{
    record_word::<RowRecord>(mem, first as usize, i, w)
}
