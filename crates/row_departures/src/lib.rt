// A vertex became inactive: the rows of a part that show it are made anew from the part's sources as they stand.
// The numbers of rows are a slice, and that each is below a part's size is a clause (`EachBelow`): the limit is another value's.
#![tactic(auto)]

ghost use Rattle.std.specs.Prelude.{◌≡◌, map, ◌+◌, ◌*◌, ◌^◌, ◌≤◌, ◌<◌, length, take};
ghost use Rattle.listing.specs.Lists.{EachBelow};
ghost use Rattle.part_words.specs.Part.{Within};
ghost use Rattle.row_departures.specs.Departure.{filled, keyed, far_key, unkeyed, source_of, gathered, renewed, remade, Sound};

use cells::more;
use layout::RowRecord;
use part_words::{MOST_ROWS, PartRows};
use row_words::{numbered, row_numbered, show, source};
use rows::Row;

// A key has room for every vertex below 65,536, and so for a distance to be added.
const KEY: u64 = 65536;

// The least key of what does not reach: one more number to compare, so that the least of all keys needs no jump.
const FAR_KEY: u64 = Row::FAR as u64 * KEY;

// What stands one step further down from a row of a part, as a key; and how far into the table the row's line is.
#[derive(Clone, Copy)]
pub struct Source {
    pub key: u64,
    pub step: usize,
}

fn key(row: Row) -> u64
    ensures { result ≡ keyed row }
{
    numbered::<KEY>(row.vertex, row.distance)
}

// A key seen d further on.
fn key_seen(key: u64, d: u32) -> u64
    requires { key < 2 ^ 49 }
    ensures { result ≡ key + d * 65536 }
{
    key + u64::from(d) * KEY
}

#[tactic(auto, unfolding(crate::specs::Departure::unkeyed))]
fn row_of_key(key: u64) -> Row
    ensures { result ≡ unkeyed key }
{
    if key < FAR_KEY {
        row_numbered::<KEY>(key)
    } else {
        Row::empty()
    }
}

// The sources of a part's rows that are not empty. Says how many there are.
fn list_sources(mem: &[u32], part: PartRows, sources: &mut [Source; MOST_ROWS]) -> usize
    requires { Within mem.now part }
    ensures few { result ≤ part.size }
    ensures listed { take result sources.new ≡ map (source_of mem.now part.first part.size) (filled mem.now part.first part.size) }
    ensures sound { Sound part.size (take result sources.new) }
{
    let mut n = 0;
    for i in 0..part.size {
        let below = source(mem, part.row(i));
        sources[n] = Source {
            key: key(below),
            step: part.size * i,
        };
        n = more(n, below.distance < Row::FAR);
    }
    n
}

// The least key of these sources, with the distances of a column of the table.
#[tactic(auto, using(crate::proofs::Keys::gathered_turn, crate::proofs::Keys::gathered_done))]
fn gather(mem: &[u32], part: PartRows, sources: &[Source], i: usize) -> u64
    requires within { Within mem.now part }
    requires sound { Sound part.size sources.now }
    requires is_row { i < part.size }
    ensures { result ≡ gathered sources.now mem.now (part.table + i) far_key }
{
    let column = part.table + i;
    let mut best = FAR_KEY;
    for source in sources {
        best = best.min(key_seen(source.key, mem[column + source.step]));
    }
    best
}

// The rows with these numbers are made anew.
#[tactic(auto, using(crate::proofs::Keys::renewed_turn, crate::proofs::Keys::renewed_done))]
fn renew_all(mem: &mut [u32], numbers: &[u32], part: PartRows, sources: &[Source])
    requires within { Within mem.old part }
    requires sound { Sound part.size sources.now }
    requires are_rows { EachBelow part.size numbers.now }
    ensures { mem.new ≡ renewed numbers.now mem.old sources.now part.first part.table }
{
    for i in numbers {
        let row = *i as usize;
        let best = gather(mem, part, sources, row);
        show(mem, part.row(row), row_of_key(best));
    }
}

// The rows with these numbers are made anew from the part's sources as they stand.
#[tactic(auto, unfolding(crate::specs::Departure::remade))]
pub fn renew_part(mem: &mut [u32], numbers: &[u32], part: PartRows)
    requires within { Within mem.old part }
    requires are_rows { EachBelow part.size numbers.now }
    ensures { mem.new ≡ remade numbers.now mem.old part.first part.table part.size }
{
    let mut sources = [Source { key: 0, step: 0 }; MOST_ROWS];
    let n = list_sources(mem, part, &mut sources);
    renew_all(mem, numbers, part, &sources[..n]);
}
