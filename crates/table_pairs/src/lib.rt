// The table of a part and those of its children: at the vertices that they share each word becomes the lesser of the two.
// That the memory keeps its length is a clause of each function: `agree` promises it, and what it calls hands it on.
#![tactic(auto)]

ghost use Rattle.std.specs.Prelude.{◌≡◌, ℕ, ◌≤◌, ◌<◌, length};
ghost use Rattle.roads.specs.Map.{Map, part_count};
ghost use Rattle.parts.specs.Size.{size_of};
ghost use Rattle.assembly.specs.Laid.{LaidForTables};
ghost use Rattle.assembly.specs.Steps.{AgreedPair, AgreedRow, Agreed};
ghost use Rattle.table_words.specs.Rows.{RowsOf, StandsBelow};

use layout::{PartRecord, RowRecord, part_word, row_word};
use table_words::{Below, LaidRows, level, part_of, place_of, row_below};

// Row j, where its vertex stands in the child that holds that of row i: the words of the two vertices in the part and in the child become the lesser.
fn level_pair(mem: &mut [u32], rows: LaidRows, i: u32, below: Below, j: u32)
    ensures agreed_pair { (m : Map) (low p : ℕ) → LaidForTables m mem.old → low ≤ p → p < part_count m → i < size_of m p → j < size_of m p → RowsOf m p rows → StandsBelow m p i below → AgreedPair m low p i j mem.old mem.new }
    ensures mem_len_unchanged { length mem.new ≡ length mem.old }
{
    if part_of(row_word(mem, rows.first, j, RowRecord::OWN)) == below.part {
        let k = place_of(
            row_word(mem, rows.first, j, RowRecord::BELOW),
            below.rows.first,
        );
        let a = rows.table.place(i, j);
        let b = below.rows.table.place(below.row, k);
        level(mem, a, b);
    }
}

// Row i, and the row of its vertex in the child that holds it.
fn level_row(mem: &mut [u32], rows: LaidRows, i: u32, below: Below)
    ensures agreed_row { (m : Map) (low p : ℕ) → LaidForTables m mem.old → low ≤ p → p < part_count m → i < size_of m p → RowsOf m p rows → StandsBelow m p i below → AgreedRow m low p i (size_of m p) mem.old mem.new }
    ensures mem_len_unchanged { length mem.new ≡ length mem.old }
{
    for j in 0..rows.table.nodes {
        level_pair(mem, rows, i, below, j);
    }
}

// Row i of part p, if a child holds its vertex.
fn agree_row(mem: &mut [u32], p: u32, i: u32)
    ensures agreed_row { (m : Map) (low : ℕ) → LaidForTables m mem.old → low ≤ p → p < part_count m → i < size_of m p → AgreedRow m low p i (size_of m p) mem.old mem.new }
    ensures mem_len_unchanged { length mem.new ≡ length mem.old }
{
    let rows = LaidRows::of(mem, p);
    if let Some(below) = row_below(mem, rows.first, i) {
        level_row(mem, rows, i, below);
    }
}

// The table of part p and those of its children agree at the vertices that they share.
pub fn agree(mem: &mut [u32], p: u32)
    ensures agreed { (m : Map) (low : ℕ) → LaidForTables m mem.old → low ≤ p → p < part_count m → Agreed m low p (size_of m p) mem.old mem.new }
    ensures mem_len_unchanged { length mem.new ≡ length mem.old }
{
    for i in 0..part_word(mem, p, PartRecord::SIZE) {
        agree_row(mem, p, i);
    }
}
