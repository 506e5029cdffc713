// What a call of the desk program does: a change or a question is asked of the core, and its lines go into a lent buffer.
#![tactic(auto)]

mod serving;

ghost use Rattle.std.specs.Prelude.{◌≡◌, ◌<◌};
ghost use Rattle.words.specs.Limits.{most_asked};
ghost use Rattle.answers.specs.Answered.{answered};
ghost use Rattle.calls.specs.Outcome.{Changed};
ghost use Rattle.desk_lines.specs.Desk.{change_line, van_line};
ghost use Rattle.desk_calls.specs.Listed.{listed_at};

use answers::{Refusal, Reply};
use cells::word;
use desk_lines::Line;
use fleet::Change;
pub use serving::serve;

pub fn make_change(memory: &mut [u32], change: Change) -> Reply
    ensures { Changed change memory.old (answered result) memory.new }
{
    match change {
        Change::Add {
            van,
            from,
            to,
            offset,
        } => hailtrellis::add(memory, van, from, to, offset),
        Change::Move {
            van,
            from,
            to,
            offset,
        } => hailtrellis::move_van(memory, van, from, to, offset),
        Change::Remove { van } => hailtrellis::remove(memory, van),
        Change::Claim { van, stamp, desk } => hailtrellis::claim(memory, van, stamp, desk),
        Change::Release { van, desk } => hailtrellis::release(memory, van, desk),
    }
}

// The new stamp, or the refusal.
pub fn change_line(place: u32, reply: Reply) -> Line
    ensures { result ≡ change_line place (answered reply) }
{
    match reply {
        Ok(stamp) => Line::Ok { place, stamp },
        Err(refusal) => refused_line(place, refusal),
    }
}

fn refused_line(place: u32, refusal: Refusal) -> Line
    ensures { result ≡ change_line place (answered (Err refusal)) }
{
    let number = refusal.number();
    Line::No { place, number }
}

// The van at `i` of the list that the answer words show (proofs/Listed).
pub fn van_line(place: u32, answer: &[u32], i: usize) -> Line
    requires { i < most_asked }
    ensures { result ≡ van_line place (listed_at answer.now i) }
{
    Line::Van {
        place,
        number: word(answer, 3 * i),
        distance: word(answer, 3 * i + 1),
        stamp: word(answer, 3 * i + 2),
    }
}
