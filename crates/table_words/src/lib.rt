// Words of rows and tables: how they are read, and leveled.
#![tactic(auto)]

ghost use Rattle.std.specs.Prelude.{◌≡◌, ℕ, ◌+◌, ◌*◌, ◌<◌, MatchOption};
ghost use Rattle.layout.specs.Layout.{rows_in_part, words_in_row, child_in_row, part_word};
ghost use Rattle.roads.specs.Map.{Map, part_count};
ghost use Rattle.parts.specs.Size.{size_of};
ghost use Rattle.assembly.specs.Laid.{LaidForTables};
ghost use Rattle.assembly.specs.Lower.{leveled};
ghost use Rattle.assembly.specs.Steps.{RowIn};
ghost use Rattle.table_words.specs.Rows.{RowsRead, StandsBelow};

use cells::{lower, word};
use layout::{PartRecord, RowRecord, part_word, row_word};
use table_rows::Table;

// Word 2 of a row: its own vertex and the part further down.
pub fn vertex_of(mark: u32) -> u32
    ensures { (result < child_in_row) × ((v c : ℕ) → v < child_in_row → mark ≡ v + child_in_row * c → result ≡ v) }
{
    mark % RowRecord::CHILD
}

// 0 for a leaf's row, whose vertex no child holds: as the memory's word has it, and no Option, since two rows' children are also compared.
pub fn part_of(mark: u32) -> u32
    ensures { (v c : ℕ) → v < child_in_row → mark ≡ v + child_in_row * c → result ≡ c }
{
    mark / RowRecord::CHILD
}

// As a word, as the addresses in a record are.
const ROW_WORDS: u32 = RowRecord::WORDS as u32;

// The number of the row at `row` among those that start at `first`.
pub fn place_of(row: u32, first: u32) -> u32
    ensures { (k : ℕ) → row ≡ first + words_in_row * k → result ≡ k }
{
    row.saturating_sub(first) / ROW_WORDS
}

// The rows of a part: where the first stands, and the table of the distances between their vertices, with a node for each row.
// As the part's record shows them, whatever it shows: that they lie within the memory is known of a memory laid for tables, and not tested, as it is of part_words::PartRows.
#[derive(Clone, Copy)]
pub struct LaidRows {
    pub first: u32,
    pub table: Table,
}

impl LaidRows {
    // Those of part p, as its record shows them.
    pub fn of(mem: &[u32], p: u32) -> LaidRows
        ensures { RowsRead mem.now p result }
    {
        LaidRows {
            first: part_word(mem, p, PartRecord::ROWS),
            table: Table {
                at: part_word(mem, p, PartRecord::TABLE),
                nodes: part_word(mem, p, PartRecord::SIZE),
            },
        }
    }
}

// The row of a row's vertex in the child that holds it: the child, its rows, and which of them it is.
#[derive(Clone, Copy)]
pub struct Below {
    pub part: u32,
    pub rows: LaidRows,
    pub row: u32,
}

// That of row i of the rows that start at `first`, if a child holds its vertex.
pub fn row_below(mem: &[u32], first: u32, i: u32) -> Option<Below>
    ensures { (m : Map) (p : ℕ) → LaidForTables m mem.now → p < part_count m → i < size_of m p → first ≡ part_word mem.now p rows_in_part → MatchOption result ((c : ℕ) → RowIn m p i c → ⊥) (StandsBelow m p i) }
{
    let part = part_of(row_word(mem, first, i, RowRecord::OWN));
    if part == 0 {
        return None;
    }
    let rows = LaidRows::of(mem, part);
    let row = place_of(row_word(mem, first, i, RowRecord::BELOW), rows.first);
    Some(Below { part, rows, row })
}

// The words at a and b become the lesser of the two.
pub fn level(mem: &mut [u32], a: usize, b: usize)
    ensures { mem.new ≡ leveled mem.old a b }
{
    let x = word(mem, a);
    let y = word(mem, b);
    lower(mem, a, y);
    lower(mem, b, x);
}
