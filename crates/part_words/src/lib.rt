// The record of a part: how many rows it has, and where they and its table stand.
#![tactic(auto)]

ghost use Rattle.std.specs.Prelude.{◌≡◌, false, ◌≤◌, MatchOption};
ghost use Rattle.part_words.specs.Part.{rows_in, lies_within, PartRead};

mod part;

use layout::{PartRecord, RowRecord, part_word};
pub use part::PartRows;

// No part has more rows. A number of this crate, beside that of map_parts: it knows memories, and not the rules of maps.
pub const MOST_ROWS: usize = 128;

// How many rows a part has, at most 128.
pub fn row_count(mem: &[u32], p: u32) -> usize
    ensures { (result ≡ rows_in mem.now p) × (result ≤ 128) }
{
    (part_word(mem, p, PartRecord::SIZE) as usize).min(MOST_ROWS)
}

// The rows and the table of a part, where both lie within the memory.
pub fn part_rows(mem: &[u32], p: u32) -> Option<PartRows>
    ensures { MatchOption result (lies_within mem.now p ≡ false) (λ part. PartRead mem.now p part) }
{
    let size = row_count(mem, p);
    let first = part_word(mem, p, PartRecord::ROWS) as usize;
    let table = part_word(mem, p, PartRecord::TABLE) as usize;
    if first + RowRecord::WORDS * size <= mem.len() && table + size * size <= mem.len() {
        Some(PartRows { size, first, table })
    } else {
        None
    }
}
