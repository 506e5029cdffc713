// A question on a lent memory: the head, the ranges and the room are tested first; the memory is only read.
#![tactic(auto)]

ghost use Rattle.std.specs.Prelude.{◌≡◌};
ghost use Rattle.answers.specs.Answered.{answered};
ghost use Rattle.fleet.specs.Question.{question_in_range};
ghost use Rattle.calls.specs.Outcome.{Asked};

use answers::{Refusal, Reply};
use cells::word;
use head::used_words;
use layout::HeadRecord;
use question::{nearest_vans, write_list};

pub const MOST_ASKED: u32 = 32;

// The vertex is one of so many, and k is 1 to 32.
fn in_range(vertices: u32, vertex: u32, k: u32) -> bool
    ensures { result ≡ question_in_range vertices vertex k }
{
    vertex < vertices && (1..=MOST_ASKED).contains(&k)
}

// The k nearest free vans to a vertex, written over the first words of the answer: van, distance and stamp of each.
pub fn question(mem: &[u32], vertex: u32, k: u32, answer: &mut [u32]) -> Reply
    ensures { Asked mem.now vertex k answer.old (answered result) answer.new }
{
    let used = used_words(mem)?;
    if !in_range(word(mem, HeadRecord::VERTICES), vertex, k) {
        return Err(Refusal::OutOfRange);
    }
    let most = k as usize;
    if answer.len() < 3 * most {
        return Err(Refusal::TooFewWords);
    }
    let inside = &mem[..used];
    let best = nearest_vans(inside, vertex, most);
    let len = best.offers().len();
    write_list(inside, best, answer);
    Ok(len as u32)
}
