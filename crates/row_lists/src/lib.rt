// The rows of a part, listed by their numbers in one pass: those whose vertices have a distance to the vertex asked at, and those whose distance is asked for.
// `dx` has a distance for each vertex, FAR where none is known yet.
#![tactic(auto)]

ghost use Rattle.std.specs.Prelude.{◌≡◌, Bool, ℕ, ◌+◌, ◌*◌, ◌≤◌, ◌<◌, ◌^◌, length, take, drop};
ghost use Rattle.layout.specs.Layout.{words_in_row};
ghost use Rattle.words.specs.Lists.{word};
ghost use Rattle.words.specs.Ranks.{rank};
ghost use Rattle.row_lists.specs.Rows.{shows_own, Picks, RowsLooked};

use cells::{more, word};
use far_sums::FAR;
use layout::{RowRecord, row_word};
pub use lists::RowLists;
use part_words::PartRows;

mod lists;

// The words of a part's rows.
pub fn rows_of(mem: &[u32], part: PartRows) -> &[u32]
    requires { part.first + words_in_row * part.size ≤ length mem.now }
    ensures { result.now ≡ take (words_in_row * part.size) (drop part.first mem.now) }
{
    &mem[part.first..part.row(part.size)]
}

// Line i of a part's table: what the table says from row i to each row.
pub fn line_of(mem: &[u32], part: PartRows, i: usize) -> &[u32]
    requires { (i < part.size) × (part.table + part.size * part.size ≤ length mem.now) }
    ensures { result.now ≡ take part.size (drop (part.table + part.size * i) mem.now) }
{
    &mem[part.line(i)..part.line(i + 1)]
}

// How many of a leaf's rows show their own vertex: those of its active vertices.
pub fn active_rows(mem: &[u32], first: u32, size: usize) -> usize
    requires { size ≤ 128 }
    ensures { (result ≡ rank (shows_own mem.now first) size) × (result ≤ size) }
{
    let mut n = 0;
    for i in 0..size {
        let near = row_word(mem, first, i as u32, RowRecord::DISTANCE);
        n = more(n, near == 0);
    }
    n
}

// Lists the rows of a part whose vertices have a distance, with these distances, and those that `is_asked` picks by its vertex's distance, by the distance that
// the row shows and by the address of the row further down. Each number is written in any case, and counts if it is of such a row.
pub fn look<F: Fn(u32, u32, u32) -> bool>(
    mem: &[u32],
    part: PartRows,
    dx: &[u32],
    lists: &mut RowLists,
    is_asked: F,
)
    requires { (part.first + words_in_row * part.size ≤ length mem.now) × F.IsAlwaysCallable is_asked }
    ensures { (test : ℕ → Bool) → Picks mem.now part.first dx.now part.size (F.post is_asked) test → RowsLooked mem.now part.first dx.now test part.size lists.new }
{
    let rows = rows_of(mem, part);
    let mut known = 0;
    let mut count = 0;
    for i in 0..part.size {
        let shown = rows[RowRecord::WORDS * i + RowRecord::DISTANCE];
        let owner = rows[RowRecord::WORDS * i + RowRecord::OWN];
        let below = rows[RowRecord::WORDS * i + RowRecord::BELOW];
        let d = word(dx, (owner % RowRecord::CHILD) as usize);
        let is = is_asked(d, shown, below);
        lists.places[known] = i as u32;
        lists.near[known] = d;
        lists.asked[count] = i as u32;
        known = more(known, d < FAR);
        count = more(count, is);
    }
    lists.known = known;
    lists.count = count;
}
