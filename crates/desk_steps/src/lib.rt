// The steps of the desk program on the bytes that it has read: the opening, and then one call after the other. The lines of a step go into a lent buffer.
// No struct holds the buffer and the place in it, as in `desk_lines`: each of its methods would have to ensure that it holds the same `&mut` still.
#![tactic(auto)]

ghost use Rattle.std.specs.Prelude.{◌≡◌, ◌∷◌, [], ◌+◌, ◌≤◌, length, take, drop};
ghost use Rattle.fleet.specs.Change.{number_of};
ghost use Rattle.answers.specs.Answered.{answered};
ghost use Rattle.maps.specs.Judge.{judge};
ghost use Rattle.desk_calls.specs.Served.{answer_words, most_buffer};
ghost use Rattle.desk_lines.specs.declared.line.Line.TheVariants.{End};
ghost use Rattle.desk_lines.specs.Desk.{memory_room, bad_at, refused_opening};
ghost use Rattle.desk_steps.specs.Plan.{judged_plan};
ghost use Rattle.desk_steps.specs.Step.{step_bytes, Room, LastStep, GoesBy, OpenStep, BeginStep, TurnStep};

use answers::Refusal;
use counts::Counts;
use desk_calls::serve;
use desk_lines::{BadRecord, Line, OPENING_BYTES, next_call, opening_of, take_map, write_line};
use map_judge::judge_map;

// Words that the buffer for the memory has.
const MEMORY_WORDS: u32 = 16384;

const MOST_CALLS: u32 = 1000000;

// More bytes than the lines of a step take.
pub const STEP_BYTES: usize = 2048;

#[derive(Clone, Copy)]
pub struct Step {
    // How many bytes the step takes; None where the last line is among its lines.
    pub taken: Option<usize>,
    // Where its lines end.
    pub end: usize,
}

// The last line, where no call follows the one at `place`.
fn finish(out: &mut [u8], at: usize, place: u32) -> Step
    requires { at ≤ most_buffer + step_bytes }
    ensures { LastStep (End place ∷ []) result out.old at out.new }
{
    let last = write_line(out, at, Line::End { place });
    Step {
        taken: None,
        end: last,
    }
}

// The last lines, where the record for `place` is bad or cut.
fn bad(out: &mut [u8], at: usize, place: u32) -> Step
    requires { at ≤ most_buffer }
    ensures { LastStep (bad_at place) result out.old at out.new }
{
    let said = write_line(out, at, Line::Bad { place });
    finish(out, said, place)
}

// A refused opening.
fn refuse(out: &mut [u8], refusal: Refusal) -> Step
    ensures { LastStep (refused_opening (number_of (answered (Err refusal)))) result out.old 0 out.new }
{
    let number = refusal.number();
    let said = write_line(out, 0, Line::No { place: 0, number });
    finish(out, said, 0)
}

// The sound map that ends at `map`, and the opening record after it.
fn open(input: &[u8], memory: &mut [u32], out: &mut [u8], counts: Counts, map: usize) -> Step
    requires { map ≤ length input.now }
    ensures { OpenStep input.now map counts result memory.old memory.new out.old out.new }
{
    let Ok(start) = opening_of(&input[map..]) else {
        return bad(out, 0, 0);
    };
    if let Err(refusal) = hailtrellis::open(&input[..map], memory, start) {
        return refuse(out, refusal);
    }
    let end = write_line(
        out,
        0,
        Line::Opened {
            vertices: counts.vertices,
            roads: counts.roads,
            parts: counts.parts,
        },
    );
    Step {
        taken: Some(map + OPENING_BYTES),
        end,
    }
}

// The map, so many bytes long, judged before the opening record is looked at.
fn judge(input: &[u8], memory: &mut [u32], out: &mut [u8], map: usize) -> Step
    requires { (map ≤ length input.now) × (length memory.old ≡ memory_room) }
    ensures { GoesBy (judged_plan (judge (take map input.now)) map (drop map input.now)) result memory.old memory.new out.old 0 out.new }
{
    match judge_map(&input[..map]) {
        Err(refusal) => refuse(out, refusal),
        Ok(sound) => {
            if MEMORY_WORDS < sound.need {
                return refuse(out, Refusal::TooFewWords);
            }
            open(input, memory, out, sound.counts, map)
        }
    }
}

// The first step: the map is the first four records, or all of the input where it ends sooner, and after it stands the opening record.
pub fn begin(input: &[u8], memory: &mut [u32], out: &mut [u8]) -> Step
    requires { Room 0 (length out.old) × (length memory.old ≡ memory_room) }
    ensures { BeginStep input.now result memory.old memory.new out.old out.new }
{
    match take_map(input) {
        None => refuse(out, Refusal::TooFewWords),
        Some(map) => judge(input, memory, out, map.min(input.len())),
    }
}

// The record for `place`: a call, or what ends the program. A call after the last that is allowed is bad.
pub fn turn(
    input: &[u8],
    memory: &mut [u32],
    answer: &mut [u32],
    out: &mut [u8],
    at: usize,
    place: u32,
) -> Step
    requires { Room at (length out.old) × (1 ≤ place) × (length answer.old ≡ answer_words) }
    ensures { TurnStep input.now place result memory.old memory.new out.old at out.new }
{
    match next_call(input) {
        Ok(None) => finish(out, at, place - 1),
        Err(BadRecord) => bad(out, at, place),
        Ok(Some((call, size))) => {
            if MOST_CALLS < place {
                return bad(out, at, place);
            }
            let end = serve(memory, answer, out, at, place, call);
            Step {
                taken: Some(size),
                end,
            }
        }
    }
}
