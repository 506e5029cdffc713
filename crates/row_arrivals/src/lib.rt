// A vertex became active: it is offered to the rows of a part by way of the sources that show it.
// The numbers of rows are a slice, and that each is below a part's size is a clause (`EachBelow`): the limit is another value's.
#![tactic(auto)]

ghost use Rattle.std.specs.Prelude.{◌≡◌, false, ◌∷◌, ◌+◌, ◌*◌, ◌≤◌, ◌<◌, length};
ghost use Rattle.layout.specs.Layout.{words_in_row};
ghost use Rattle.listing.specs.Lists.{EachBelow};
ghost use Rattle.part_words.specs.Part.{Within};
ghost use Rattle.row_words.specs.Words.{unplaced};
ghost use Rattle.row_arrivals.specs.Arrival.{offered_to, offered, placed_seen, spread, is_news, met, arrived, any_news, lead};

use layout::RowRecord;
use part_words::PartRows;
use row_words::{place, row_of, source};
use rows::Row;

// The place of what a row shows, seen d further on; where that is too far, the last of all numbers, which comes before no row: so the nearer of two rows is the lesser
// of two numbers, without a jump.
#[tactic(auto, unfolding(crate::specs::Arrival::placed_seen))]
fn place_seen(seen: Row, d: u32) -> u64
    ensures { result ≡ placed_seen seen.vertex seen.distance d }
{
    if d < Row::FAR - seen.distance {
        place(seen.vertex, seen.distance + d)
    } else {
        u64::MAX
    }
}

// Of a row, and of what another shows, seen d further on, the one that comes before.
#[tactic(auto, using(crate::proofs::Offers::nearer_least))]
fn nearer_place(row: u64, seen: Row, d: u32) -> u64
    ensures { unplaced result ≡ offered_to (unplaced row) seen.vertex seen.distance d }
{
    place_seen(seen, d).min(row)
}

// What a row shows is offered to a row that stands d further on.
#[tactic(auto, using(crate::proofs::Offers::offered_is))]
fn offer(mem: &mut [u32], to: usize, seen: Row, d: u32)
    requires { to + 1 < length mem.old }
    ensures { mem.new ≡ offered mem.old to seen.vertex seen.distance d }
{
    let old = place(mem[to], mem[to + RowRecord::DISTANCE]);
    let row = row_of(nearer_place(old, seen, d));
    mem[to] = row.vertex;
    mem[to + RowRecord::DISTANCE] = row.distance;
}

// What a row shows is offered to all rows of a part, with the distances of a line of the table.
#[tactic(auto, using(crate::proofs::Offers::spread_turn, crate::proofs::Offers::spread_done))]
fn spread_line(mem: &mut [u32], part: PartRows, line: usize, seen: Row)
    requires within { Within mem.old part }
    requires line { line + part.size ≤ length mem.old }
    ensures { mem.new ≡ spread part.size mem.old part.first line seen.vertex seen.distance }
{
    // By index: rows and table stand in one memory, and forged words may let them overlap.
    for i in 0..part.size {
        let d = mem[line + i];
        offer(mem, part.row(i), seen, d);
    }
}

// Where the source of row number i shows v, and comes before what the row itself shows, it is offered to all rows of the part. Says whether it is.
fn meet(mem: &mut [u32], part: PartRows, v: u32, i: usize) -> bool
    requires within { Within mem.old part }
    requires is_row { i < part.size }
    ensures { (mem.new ≡ met mem.old part.first part.size v (part.first + words_in_row * i) (part.table + part.size * i)) × (result ≡ is_news mem.old v (part.first + words_in_row * i)) }
{
    let row = part.row(i);
    let seen = source(mem, row);
    let shown = Row::showing(mem[row], mem[row + RowRecord::DISTANCE]);
    if seen.vertex == v && seen < shown {
        spread_line(mem, part, part.line(i), seen);
        true
    } else {
        false
    }
}

// The sources of the rows with these numbers are met. Says whether any was offered.
#[tactic(auto, using(crate::proofs::Sources::arrived_turn, crate::proofs::Sources::arrived_done, crate::proofs::Sources::news_turn, crate::proofs::Sources::news_done, crate::proofs::Sources::or_comm))]
fn meet_all(mem: &mut [u32], numbers: &[u32], part: PartRows, v: u32) -> bool
    requires within { Within mem.old part }
    requires are_rows { EachBelow part.size numbers.now }
    ensures { (mem.new ≡ arrived numbers.now mem.old part.first part.table part.size v) × (result ≡ any_news false numbers.now mem.old part.first part.table part.size v) }
{
    let mut any = false;
    for i in numbers {
        any |= meet(mem, part, v, *i as usize);
    }
    any
}

// Of the rows with these numbers one whose source is the nearest: its number.
#[tactic(auto, using(crate::proofs::Sources::lead_turn, crate::proofs::Sources::lead_done))]
fn nearest_number(mem: &[u32], numbers: &[u32], part: PartRows) -> usize
    requires within { Within mem.now part }
    requires are_rows { EachBelow part.size numbers.now }
    ensures { result ≡ lead numbers.now mem.now part.first }
{
    let mut best = place(0, Row::FAR);
    for i in numbers {
        let seen = source(mem, part.row(*i as usize));
        best = best.min(place(*i, seen.distance));
    }
    row_of(best).vertex as usize
}

// The sources of the rows with these numbers are met, the nearest first: what it brings the others often need not bring again. Says whether any was offered.
pub fn meet_led(mem: &mut [u32], numbers: &[u32], part: PartRows, v: u32) -> bool
    requires within { Within mem.old part }
    requires some { 0 < part.size }
    requires are_rows { EachBelow part.size numbers.now }
    ensures { (mem.new ≡ arrived (lead numbers.now mem.old part.first ∷ numbers.now) mem.old part.first part.table part.size v) × (result ≡ any_news false (lead numbers.now mem.old part.first ∷ numbers.now) mem.old part.first part.table part.size v) }
{
    let nearest = nearest_number(mem, numbers, part);
    let any = meet(mem, part, v, nearest);
    any | meet_all(mem, numbers, part, v)
}
