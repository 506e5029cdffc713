// The section of the parts. They are walked from the last to the first, so that the children of a part are known before it, and each is put
// in front of the children of its parent.
#![tactic(auto)]

ghost use Rattle.std.specs.Prelude.{◌≡◌, ◌-◌, ◌*◌, ◌^◌, ◌≤◌, min, set};
ghost use Rattle.words.specs.Limits.{most_parts};
ghost use Rattle.words.specs.Lists.{word};
ghost use Rattle.layout.specs.Layout.{words_in_row};
ghost use Rattle.roads.specs.Map.{Map};
ghost use Rattle.image.specs.Places.{rows_at};
ghost use Rattle.opening_parts.specs.Parts.{Sized, PartsReady, PartsStand};

use cells::{put, word};
use layout::{HeadRecord, PartRecord, RowRecord};
use records::put_words;

// Where so many rows begin that end at `end`.
fn row_start(end: u32, size: u32) -> u32
    ensures { result ≡ end - min (size * words_in_row) (2 ^ 32 - 1) }
{
    end.saturating_sub(size.saturating_mul(RowRecord::WORDS as u32))
}

// Where so many lines of a table begin that end at `end`.
fn table_start(end: u32, size: u32) -> u32
    ensures { result ≡ end - min (size * size) (2 ^ 32 - 1) }
{
    end.saturating_sub(size.saturating_mul(size))
}

// Where the rows of all parts begin that end at `rows_end`.
pub fn rows_begin(sizes: &[u32], parts: u32, rows_end: u32) -> u32
    ensures { (m : Map) → Sized m sizes.now parts rows_end → result ≡ rows_at m }
{
    let mut row = rows_end;
    for p in (0..parts).rev() {
        row = row_start(row, word(sizes, p as usize));
    }
    row
}

// Part p becomes the first child of its parent; the one that was first is its next sibling.
fn adopt(children: &mut [u32], parent: u32, p: u32) -> u32
    ensures { (result ≡ word children.old parent) × (children.new ≡ set children.old parent p) }
{
    let at = parent as usize;
    let sibling = word(children, at);
    put(children, at, p);
    sibling
}

// The parts of a map whose tables end where its rows begin, at `tables_end`, and whose rows end at `rows_end`; `children`, all 0 before, has a
// word for each part.
pub fn write_parts(
    parents: &[u32],
    sizes: &[u32],
    parts: u32,
    tables_end: u32,
    rows_end: u32,
    children: &mut [u32],
    mem: &mut [u32],
)
    requires { parts ≤ most_parts }
    ensures { (m : Map) → PartsReady m parents.now sizes.now parts tables_end rows_end children.old mem.old → PartsStand m 0 mem.old mem.new }
{
    let mut table = tables_end;
    let mut row = rows_end;
    for p in (0..parts).rev() {
        let size = word(sizes, p as usize);
        table = table_start(table, size);
        row = row_start(row, size);
        let parent = word(parents, p as usize);
        let child = word(children, p as usize);
        let sibling = adopt(children, parent, p);
        let at = HeadRecord::WORDS + PartRecord::WORDS * p as usize;
        put_words(mem, at, [parent, size, row, table, child, sibling, 0, 0]);
    }
}
