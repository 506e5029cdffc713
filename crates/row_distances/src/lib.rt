// Distances to the vertex asked at, for the vertices that have a row in a part: each row that is asked for gets as little as a way by way of a row makes it.
#![tactic(auto)]

ghost use Rattle.std.specs.Prelude.{◌≡◌, Bool, true, ℕ, ◌≤◌, ◌<◌, length, take};
ghost use Rattle.layout.specs.Layout.{rows_in_part, table_in_part, part_word};
ghost use Rattle.words.specs.Lists.{word};
ghost use Rattle.far_sums.specs.Least.{Least};
ghost use Rattle.listing.specs.Lists.{Among, Lists};
ghost use Rattle.part_words.specs.Part.{rows_in, Within};
ghost use Rattle.row_lists.specs.Rows.{Fits, shows_own, own_rows, RowsLooked, AskedRow, OwnRow};
ghost use Rattle.row_distances.specs.Distances.{way_over, Closer, Relaxed, Alone, out_of};

use cells::{lower, more, word};
use far_sums::FAR;
use layout::{PartRecord, RowRecord, part_word, row_word};
use part_words::{PartRows, part_rows, row_count};
use row_lists::{RowLists, line_of, look, rows_of};

// The least way over a line of the table by way of one of the known rows, which all have a word in the line.
pub fn least_in(line: &[u32], lists: &RowLists) -> u32
    requires { (t : ℕ) → t < lists.now.known → word lists.now.places t < length line.now }
    ensures { Least (way_over line.now lists.now.places lists.now.near) lists.now.known result }
{
    let mut least = FAR as usize;
    for (&place, &near) in lists.places().iter().zip(lists.near()) {
        least = least.min(line[place as usize] as usize + near as usize);
    }
    least as u32
}

// The rows that are asked for, listed by `look`: each gets as little as a way by way of a row makes it.
fn relax_asked(mem: &[u32], part: PartRows, dx: &mut [u32], lists: &RowLists)
    requires { Within mem.now part × ((test : ℕ → Bool) × RowsLooked mem.now part.first dx.old test part.size lists.now) }
    ensures { Closer mem.now part.first part.table part.size dx.old (Among lists.now.asked lists.now.count) dx.new }
{
    let rows = rows_of(mem, part);
    for &asked in lists.asked() {
        let i = asked as usize;
        let way = least_in(line_of(mem, part, i), lists);
        lower(
            dx,
            (rows[RowRecord::WORDS * i + RowRecord::OWN] % RowRecord::CHILD) as usize,
            way,
        );
    }
}

// The active rows of a leaf, those that show their own vertex, get their distances, and are listed by their numbers. No row is listed where the leaf does not lie
// within the memory.
pub fn relax_leaf(mem: &[u32], p: u32, dx: &mut [u32], lists: &mut RowLists)
    ensures { Fits mem.now p → Closer mem.now (part_word mem.now p rows_in_part) (part_word mem.now p table_in_part) (rows_in mem.now p) dx.old (OwnRow mem.now (part_word mem.now p rows_in_part) (rows_in mem.now p)) dx.new × (take lists.new.count lists.new.asked ≡ own_rows mem.now p) }
{
    let Some(part) = part_rows(mem, p) else {
        lists.count = 0;
        return;
    };
    look(mem, part, dx, lists, |_near, shown, _below| shown == 0);
    relax_asked(mem, part, dx, lists);
}

// Each row's vertex gets at most what the table says from it to the row at `place`; and the rows that show their own vertex are listed by their numbers.
fn lower_rows(mem: &[u32], part: PartRows, place: usize, dx: &mut [u32], lists: &mut RowLists)
    requires { (place < part.size) × Within mem.now part }
    ensures { (length dx.new ≡ length dx.old) × Lists (shows_own mem.now part.first) part.size lists.new.asked lists.new.count × (Alone mem.now part.first part.size dx.old place → Closer mem.now part.first part.table part.size dx.old (AskedRow true mem.now part.first part.size dx.old) dx.new) }
{
    let rows = rows_of(mem, part);
    let mut count = 0;
    for i in 0..part.size {
        let shown = rows[RowRecord::WORDS * i + RowRecord::DISTANCE];
        let way = mem[part.line(i) + place];
        lower(
            dx,
            (rows[RowRecord::WORDS * i + RowRecord::OWN] % RowRecord::CHILD) as usize,
            way,
        );
        lists.asked[count] = i as u32;
        count = more(count, shown == 0);
    }
    lists.count = count;
}

// The rows of a leaf of which only the one at `place` has a distance, 0: each gets what the table says to that one. Those that show their own vertex are listed by
// their numbers. No row is listed where the leaf does not lie within the memory, or has no such row.
pub fn relax_own(mem: &[u32], p: u32, place: usize, dx: &mut [u32], lists: &mut RowLists)
    ensures { Fits mem.now p → place < rows_in mem.now p → (Alone mem.now (part_word mem.now p rows_in_part) (rows_in mem.now p) dx.old place → Relaxed mem.now p true dx.old dx.new) × (take lists.new.count lists.new.asked ≡ own_rows mem.now p) }
{
    match part_rows(mem, p) {
        Some(part) if place < part.size => lower_rows(mem, part, place, dx, lists),
        _ => lists.count = 0,
    }
}

// The distance of row i's vertex, if the row lies in the child c.
fn out_of(mem: &[u32], first: u32, i: u32, c: u32, dx: &[u32]) -> u32
    ensures { result ≡ out_of mem.now first dx.now c i }
{
    let owner = row_word(mem, first, i, RowRecord::OWN);
    if owner / RowRecord::CHILD == c {
        word(dx, (owner % RowRecord::CHILD) as usize)
    } else {
        FAR
    }
}

// The least distance of a boundary vertex of part c, whose parent is p: nothing outside c is nearer.
pub fn way_out(mem: &[u32], p: u32, c: u32, dx: &[u32]) -> u32
    ensures { Least (out_of mem.now (part_word mem.now p rows_in_part) dx.now c) (rows_in mem.now p) result }
{
    let first = part_word(mem, p, PartRecord::ROWS);
    let mut least = FAR;
    for i in 0..row_count(mem, p) {
        least = least.min(out_of(mem, first, i as u32, c, dx));
    }
    least
}
