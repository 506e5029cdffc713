// The distance tables of all parts, in place. From the last part to the first each table is made right inside its part, from the roads between the
// part's row vertices and the children's tables; then, from the first part to the last, each child's table becomes right over the whole map, by way
// of its boundary vertices and the parent's table.
// That the memory keeps its length is a clause of each function: `fill_tables` promises it, and what it calls hands it on.
#![tactic(auto)]

ghost use Rattle.std.specs.Prelude.{◌≡◌, List, ℕ, suc, ◌≤◌, ◌<◌, length};
ghost use Rattle.words.specs.Limits.{most_vertices};
ghost use Rattle.roads.specs.Map.{Map, part_count};
ghost use Rattle.parts.specs.Size.{size_of};
ghost use Rattle.assembly.specs.Laid.{LaidForTables, Filled};
ghost use Rattle.assembly.specs.Lower.{Inside};
ghost use Rattle.assembly.specs.Steps.{AtHome, HaltTried, Closed, EnteredRow, Entered, Risen, Descended};

use cells::word;
use layout::{HeadRecord, PartRecord, part_word};
use table_pairs::agree;
use table_roads::{note_rows, take_roads};
use table_rows::Table;
use table_words::{LaidRows, row_below};

// Row k is tried, if it is marked as a halt.
fn try_halt(mem: &mut [u32], marks: &[u32], table: Table, k: u32)
    ensures { HaltTried table.at table.nodes k marks.now mem.old mem.new }
{
    if word(marks, k as usize) == 1 {
        table.try_node(mem, k);
    }
}

// Every halt of part p is tried in its table.
fn close(mem: &mut [u32], marks: &[u32], p: u32)
    ensures closed { (m : Map) → LaidForTables m mem.old → p < part_count m → AtHome m p mem.old → Closed m p (size_of m p) marks.now mem.old mem.new }
    ensures mem_len_unchanged { length mem.new ≡ length mem.old }
{
    let table = LaidRows::of(mem, p).table;
    for k in 0..table.nodes {
        try_halt(mem, marks, table, k);
    }
}

// The table of part p, right inside the part, where those of the later parts are. There is a mark for each of its rows, which are 128 at most.
fn rise(mem: &mut [u32], place: &mut [u32], p: u32)
    ensures risen { (m : Map) → LaidForTables m mem.old → p < part_count m → most_vertices ≤ length place.old → Inside m (suc p) mem.old → Risen m p mem.old mem.new }
    ensures mem_len_unchanged { length mem.new ≡ length mem.old }
    ensures place_len_unchanged { length place.new ≡ length place.old }
{
    let mut marks = [0; 128];
    LaidRows::of(mem, p).table.blank(mem);
    note_rows(mem, p, place);
    take_roads(mem, place, &mut marks, p);
    agree(mem, p);
    close(mem, &marks, p);
}

// The tables of all parts, from the last to the first.
fn rise_parts(mem: &mut [u32], place: &mut [u32])
    ensures risen { (m : Map) → LaidForTables m mem.old → most_vertices ≤ length place.old → Risen m 0 mem.old mem.new }
    ensures mem_len_unchanged { length mem.new ≡ length mem.old }
{
    let count = word(mem, HeadRecord::PARTS);
    for p in (0..count).rev() {
        rise(mem, place, p);
    }
}

// The vertex of row i of part p is tried in the table of the child that holds it.
fn enter_row(mem: &mut [u32], p: u32, i: u32)
    ensures entered_row { (m : Map) → LaidForTables m mem.old → p < part_count m → i < size_of m p → Inside m 0 mem.old → EnteredRow m p i mem.old mem.new }
    ensures mem_len_unchanged { length mem.new ≡ length mem.old }
{
    let first = part_word(mem, p, PartRecord::ROWS);
    if let Some(below) = row_below(mem, first, i) {
        below.rows.table.try_node(mem, below.row);
    }
}

// The vertices of all rows of part p are tried, each in the table of the child that holds it.
fn enter_rows(mem: &mut [u32], p: u32)
    ensures entered { (m : Map) → LaidForTables m mem.old → p < part_count m → Inside m 0 mem.old → Entered m p (size_of m p) mem.old mem.new }
    ensures mem_len_unchanged { length mem.new ≡ length mem.old }
{
    for i in 0..part_word(mem, p, PartRecord::SIZE) {
        enter_row(mem, p, i);
    }
}

// The tables of the children of part p, right over the whole map, where that of p is.
fn descend(mem: &mut [u32], p: u32)
    ensures descended { (m : Map) (start : List ℕ) → LaidForTables m start → p < part_count m → Descended m p start mem.old → Descended m (suc p) start mem.new }
    ensures mem_len_unchanged { length mem.new ≡ length mem.old }
{
    agree(mem, p);
    enter_rows(mem, p);
}

// The tables of all parts, from the first to the last.
fn descend_parts(mem: &mut [u32])
    ensures descended { (m : Map) (start : List ℕ) → LaidForTables m start → Descended m 0 start mem.old → Descended m (part_count m) start mem.new }
    ensures mem_len_unchanged { length mem.new ≡ length mem.old }
{
    let count = word(mem, HeadRecord::PARTS);
    for p in 0..count {
        descend(mem, p);
    }
}

// All tables of a memory whose other sections stand.
pub fn fill_tables(mem: &mut [u32])
    ensures filled { (m : Map) → LaidForTables m mem.old → Filled m mem.old mem.new }
    ensures mem_len_unchanged { length mem.new ≡ length mem.old }
{
    let mut place = [0; 4096];
    rise_parts(mem, &mut place);
    descend_parts(mem);
}
