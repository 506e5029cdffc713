// One call: the core is asked, and the lines of what it answers are stored in a lent buffer. No struct holds the buffer and the place in it, as in `desk_lines`: each of
// its methods would have to ensure that it holds the same `&mut` still. The buffers are slices whose lengths are clauses: who lends them owns them.
ghost use Rattle.std.specs.Prelude.{◌≡◌, ◌≤◌, min, length};
ghost use Rattle.words.specs.Lists.{gather};
ghost use Rattle.words.specs.Limits.{most_asked};
ghost use Rattle.desk_lines.specs.declared.record.Call.TheVariants.{Asks};
ghost use Rattle.desk_lines.specs.Line.{text_of};
ghost use Rattle.desk_lines.specs.Written.{Wrote};
ghost use Rattle.desk_calls.specs.Listed.{list_lines};
ghost use Rattle.desk_calls.specs.Served.{answer_words, most_buffer, Served};

use super::{change_line, make_change, refused_line, van_line};
use desk_lines::{Call, Line, write_line};

// Vans that a question lists at most.
const MOST_LISTED: u32 = 32;

// The list's length, and a line for each van that the answer words show.
fn list(answer: &[u32], out: &mut [u8], at: usize, place: u32, count: u32) -> usize
    requires { at ≤ most_buffer }
    ensures { Wrote out.old at (gather text_of (list_lines place count answer.now (min count most_asked))) result out.new }
{
    let length = Line::Length {
        place,
        length: count,
    };
    let mut end = write_line(out, at, length);
    for i in 0..count.min(MOST_LISTED) as usize {
        end = write_line(out, end, van_line(place, answer, i));
    }
    end
}

fn question(
    memory: &[u32],
    answer: &mut [u32],
    out: &mut [u8],
    at: usize,
    place: u32,
    vertex: u32,
    k: u32,
) -> usize
    requires { (at ≤ most_buffer) × (length answer.old ≡ answer_words) }
    ensures { Served (Asks vertex k) place memory.now memory.now out.old at result out.new }
{
    match hailtrellis::question(memory, vertex, k, answer) {
        Ok(count) => list(answer, out, at, place, count),
        Err(refusal) => write_line(out, at, refused_line(place, refusal)),
    }
}

// The call at `place`; where its lines end.
pub fn serve(
    memory: &mut [u32],
    answer: &mut [u32],
    out: &mut [u8],
    at: usize,
    place: u32,
    call: Call,
) -> usize
    requires { (at ≤ most_buffer) × (length answer.old ≡ answer_words) }
    ensures { Served call place memory.old memory.new out.old at result out.new }
{
    match call {
        Call::Changes(c) => {
            let reply = make_change(memory, c);
            write_line(out, at, change_line(place, reply))
        }
        Call::Asks { vertex, k } => question(memory, answer, out, at, place, vertex, k),
    }
}
