// Add, move, remove, claim and release on a lent memory. All tests come before the first store. Each change of a van is one or two of these: written anew in
// its place, taken out of the list of a vertex, put into the list of a vertex; the rows are refreshed where a vertex becomes active or inactive.
// That a van is below 1,024 is a clause, and known where a change is in range.
// A memory and its counts are no struct: what reads is lent `&[u32]` and what changes `&mut [u32]`, and a struct holds only one of these.
#![tactic(auto)]

ghost use Rattle.std.specs.Prelude.{◌≡◌, ◌<◌};
ghost use Rattle.words.specs.Limits.{vans};
ghost use Rattle.words.specs.Lists.{word};
ghost use Rattle.answers.specs.Answered.{answered};
ghost use Rattle.fleet.specs.Change.{in_range, van_of};
ghost use Rattle.refusals.specs.Verdict.{desk_of};
ghost use Rattle.calls.specs.Outcome.{Changed};
ghost use Rattle.changes.specs.Made.{switched_alone, van_departed, van_arrived, head_in, made, counted, settled};
ghost use Rattle.changes.specs.Done.{ChangeDone};

use answers::{Refusal, Reply};
use cells::{put, word};
use counts::Counts;
use fleet::Change;
use head::used_words;
use layout::{HeadRecord, VertexRecord};
use places::{counts_in, vertex_at};
use refusals::judged;
use road_lookup::road_end;
use row_refresh::switch;
use van_lists::{VanWords, put_in, take_out, van_in, write_van};

// Where `others`, the first of the other vans in the list of the vertex, is none, the vertex becomes active (`arrives`) or inactive.
// `arrives` is a value of the rows, passed on, and chooses nothing here.
#[tactic(auto, unfolding(crate::specs::Made::switched_alone))]
fn switch_alone(mem: &mut [u32], vertex: u32, others: u32, arrives: bool)
    ensures { mem.new ≡ switched_alone mem.old vertex others arrives }
{
    if others == 0 {
        switch(mem, vertex, arrives);
    }
}

// A free van for `vertex` stands as `words` say, and heads nowhere.
#[tactic(auto, unfolding(crate::specs::Made::van_departed))]
fn depart(mem: &mut [u32], counts: Counts, van: u32, vertex: u32, words: VanWords)
    ensures { mem.new ≡ van_departed mem.old counts van vertex words }
{
    take_out(mem, counts, van, vertex, words);
    let others = word(mem, vertex_at(counts, vertex) + VertexRecord::VANS);
    switch_alone(mem, vertex, others, false);
}

// A van that heads nowhere stands as `words` say, a free van for `vertex`.
#[tactic(auto, unfolding(crate::specs::Made::van_arrived))]
fn arrive(mem: &mut [u32], counts: Counts, van: u32, vertex: u32, words: VanWords)
    requires { van < vans }
    ensures { mem.new ≡ van_arrived mem.old counts van vertex words }
{
    let others = word(mem, vertex_at(counts, vertex) + VertexRecord::VANS);
    put_in(mem, counts, van, vertex, words);
    switch_alone(mem, vertex, others, true);
}

// The vertex that a free van heads for, the end of its road; other vans head nowhere.
fn head_of(mem: &[u32], counts: Counts, words: VanWords) -> Option<u32>
    ensures { result ≡ head_in mem.now counts words }
{
    if words.state == VanWords::FREE {
        Some(road_end(mem, counts, words.road))
    } else {
        None
    }
}

// The van, which stood as `old` says, stands as `new` says.
#[tactic(auto, unfolding(crate::specs::Made::made, crate::specs::Made::moved))]
fn make(mem: &mut [u32], counts: Counts, van: u32, old: VanWords, new: VanWords)
    requires { van < vans }
    ensures { mem.new ≡ made mem.old counts van old new }
{
    match (head_of(mem, counts, old), head_of(mem, counts, new)) {
        (Some(from), Some(to)) if from != to => {
            depart(mem, counts, van, from, VanWords::ABSENT);
            arrive(mem, counts, van, to, new);
        }
        (Some(from), None) => depart(mem, counts, van, from, new),
        (None, Some(to)) => arrive(mem, counts, van, to, new),
        _ => write_van(mem, counts, van, new),
    }
}

// The van stands as `new` says, under the next count as its stamp, unless the count is used up.
#[tactic(auto, unfolding(crate::specs::Made::settled))]
fn settle(mem: &mut [u32], counts: Counts, van: u32, old: VanWords, new: VanWords) -> Reply
    requires { van < vans }
    ensures answer { result ≡ counted (word mem.old 5) }
    ensures words { mem.new ≡ settled mem.old counts van old new }
{
    let count = word(mem, HeadRecord::COUNT);
    let Some(stamp) = count.checked_add(1) else {
        return Err(Refusal::CountFull);
    };
    put(mem, HeadRecord::COUNT, stamp);
    make(mem, counts, van, old, new.stamped(stamp));
    Ok(stamp)
}

// The change on the words used of a memory, where its numbers are in range.
pub fn change_in(mem: &mut [u32], change: Change) -> Reply
    requires { (van_of change < vans) × (desk_of change < 256) }
    ensures { ChangeDone change mem.old (answered result) mem.new }
{
    let counts = counts_in(mem);
    let van = change.van();
    let old = van_in(mem, counts, van);
    let new = judged(mem, counts, old, change)?;
    settle(mem, counts, van, old, new)
}

// Each number of the change is in its range.
fn in_range(change: Change) -> bool
    ensures { result ≡ in_range change }
{
    if change.van() >= VanWords::VANS {
        return false;
    }
    match change {
        Change::Claim { desk, .. } | Change::Release { desk, .. } => {
            (1..=VanWords::MOST_DESK).contains(&desk)
        }
        _ => true,
    }
}

// Every change, for any numbers and any memory: the head, the ranges, and then the words used are lent and nothing beyond them.
pub fn change(mem: &mut [u32], change: Change) -> Reply
    ensures { Changed change mem.old (answered result) mem.new }
{
    let used = used_words(mem)?;
    if !in_range(change) {
        return Err(Refusal::OutOfRange);
    }
    change_in(&mut mem[..used], change)
}
