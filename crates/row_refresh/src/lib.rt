// The nearest rows kept exact when one vertex becomes active or inactive. Every function says what it does to any list of words, so forged
// words harm nothing; what that means of the words of a map and a fleet is proved about these definitions, in crate row_memory.
#![tactic(auto)]

ghost use Rattle.std.specs.Prelude.{◌≡◌, Bool, true, false, ℕ, ◌≤◌, ◌<◌, take};
ghost use Rattle.part_words.specs.Part.{Within};
ghost use Rattle.words.specs.Lists.{up_to, keep};
ghost use Rattle.row_refresh.specs.Model.{changed, touches, refreshed, touched, refreshed_up, own_row, switched};

use cells::{more, word};
use layout::{PartRecord, VertexRecord, part_word};
use part_words::{MOST_ROWS, PartRows, part_rows};
use places::{counts_in, vertex_at};
use row_arrivals::meet_led;
use row_departures::renew_part;
use row_words::{show, source};
use rows::Row;

const MOST_LEVELS: usize = 16;

// The numbers below `size` that pass a test. Says how many there are.
fn list_passing<F: Fn(usize) -> bool>(
    size: usize,
    passes: F,
    numbers: &mut [u32; MOST_ROWS],
) -> usize
    requires few { size ≤ 128 }
    requires callable { (i : ℕ) → i < size → F.pre passes i }
    ensures few { result ≤ size }
    ensures listed { (test : ℕ → Bool) → ((i : ℕ) (is : Bool) → i < size → F.post passes i is → is ≡ test i) → take result numbers.new ≡ keep test (up_to size) }
{
    let mut n = 0;
    for i in 0..size {
        numbers[n] = i as u32;
        n = more(n, passes(i));
    }
    n
}

// The rows of a part, after v arrived in it. Says whether any row may have changed.
fn arrive(mem: &mut [u32], part: PartRows, v: u32) -> bool
    requires { Within mem.old part }
    ensures { (mem.new ≡ changed mem.old part.first part.table part.size v true) × (result ≡ touches mem.old part.first part.table part.size v true) }
{
    let mut numbers = [0; MOST_ROWS];
    let n = list_passing(
        part.size,
        |i| source(mem, part.row(i)).vertex == v,
        &mut numbers,
    );
    if n == 0 {
        return false;
    }
    meet_led(mem, &numbers[..n], part, v)
}

// The rows of a part, after v departed from it. Says whether any row may have changed.
fn depart(mem: &mut [u32], part: PartRows, v: u32) -> bool
    requires { Within mem.old part }
    ensures { (mem.new ≡ changed mem.old part.first part.table part.size v false) × (result ≡ touches mem.old part.first part.table part.size v false) }
{
    let mut numbers = [0; MOST_ROWS];
    let n = list_passing(part.size, |i| mem[part.row(i)] == v, &mut numbers);
    if n == 0 {
        return false;
    }
    renew_part(mem, &numbers[..n], part);
    true
}

// The rows of part p, by its record, after v arrived or departed; where its rows or its table would not lie within the memory nothing is done. `arrives` is a fact
// of the fleet, here and in `switch`: the clauses' definitions take it so.
fn refresh(mem: &mut [u32], p: u32, v: u32, arrives: bool) -> bool
    ensures { (mem.new ≡ refreshed mem.old p v arrives) × (result ≡ touched mem.old p v arrives) }
{
    let Some(part) = part_rows(mem, p) else {
        return false;
    };
    if arrives {
        arrive(mem, part, v)
    } else {
        depart(mem, part, v)
    }
}

// The rows of part p and of each part above it: the number falls at each parent. Whether v is active goes along, as a fact of the fleet: a change passed in its place
// would have to be named in each clause.
fn refresh_up(mem: &mut [u32], p: u32, v: u32, arrives: bool, levels: usize)
    requires { levels ≤ 16 }
    ensures { mem.new ≡ refreshed_up levels mem.old p v arrives }
{
    if levels == 0 || !refresh(mem, p, v, arrives) {
        return;
    }
    let above = part_word(mem, p, PartRecord::PARENT);
    if above < p {
        refresh_up(mem, above, v, arrives, levels - 1);
    }
}

// What v shows of itself.
fn own_row(v: u32, active: bool) -> Row
    ensures { result ≡ own_row v active }
{
    if active {
        Row::showing(v, 0)
    } else {
        Row::empty()
    }
}

// Vertex v became active (`arrives`) or inactive: it shows so itself, and so do the rows of its leaf and of each part above.
pub fn switch(mem: &mut [u32], v: u32, arrives: bool)
    ensures { mem.new ≡ switched mem.old v arrives }
{
    let at = vertex_at(counts_in(mem), v);
    let leaf = word(mem, at + VertexRecord::LEAF);
    show(mem, at + VertexRecord::ITSELF, own_row(v, arrives));
    refresh_up(mem, leaf, v, arrives, MOST_LEVELS);
}
