// The desk program but for reading and writing. It looks at its input through a window, and keeps its lines in a buffer: this crate says when the window
// must be filled and when the lines must be written, and does the steps between. What the steps give one after the other is what the whole input gets
// (proofs/Transcript).
#![tactic(auto)]

ghost use Rattle.std.specs.Prelude.{◌≡◌, false, ◌+◌, ◌≤◌, length, unwrap_or};
ghost use Rattle.desk_lines.specs.Desk.{memory_room, most_calls};
ghost use Rattle.desk_calls.specs.Served.{answer_words, most_buffer};
ghost use Rattle.desk_steps.specs.Step.{Room};
ghost use Rattle.desk_run.specs.Desk.{fresh_desk, needed_at, Fed, filled_desk, emptied_desk, after_step, MayStep, PackedLeft, packed_desk, NextStep};

use desk_lines::{LONGEST_CALL, MAP_ROOM, OPENING_BYTES};
use desk_steps::{STEP_BYTES, Step, begin, turn};

#[derive(Clone, Copy)]
pub struct Desk {
    // The window's bytes from `from` to `to` are read and not looked at yet.
    pub from: usize,
    pub to: usize,
    // So many bytes of lines wait to be written.
    pub out: usize,
    // The place of the next step, that of the opening being 0.
    pub place: u32,
    // Nothing of the input comes after what is in the window.
    pub ended: bool,
    // The last line is among those that wait.
    pub over: bool,
}

// Bytes that show all that the step at `place` looks at.
fn needed(place: u32) -> usize
    ensures { result ≡ needed_at place }
{
    if place == 0 {
        MAP_ROOM + OPENING_BYTES
    } else {
        LONGEST_CALL
    }
}

impl Desk {
    // Nothing is read and nothing is written.
    pub fn fresh() -> Desk
        ensures { result ≡ fresh_desk }
    {
        Desk {
            from: 0,
            to: 0,
            out: 0,
            place: 0,
            ended: false,
            over: false,
        }
    }

    // Whether the window must be filled before the next step.
    pub fn hungry(self) -> bool
        requires { self.from ≤ self.to }
        ensures { result ≡ false → Fed self }
    {
        !self.ended && self.to - self.from < needed(self.place)
    }

    // Moves what is left in the window to its start, so that there is room to read on.
    pub fn packed(self, window: &mut [u8]) -> Desk
        requires { (self.from ≤ self.to) × (self.to ≤ length window.old) }
        ensures { PackedLeft window.old self window.new × (result ≡ packed_desk self) }
    {
        window.copy_within(self.from..self.to, 0);
        Desk {
            from: 0,
            to: self.to - self.from,
            ..self
        }
    }

    // So many bytes were read into the window after those that were there. Where that is fewer than there was room for, the input has ended.
    pub fn filled(self, window: &[u8], count: usize) -> Desk
        requires { self.to + count ≤ length window.now }
        ensures { result ≡ filled_desk self count (length window.now) }
    {
        Desk {
            to: self.to + count,
            ended: count < window.len() - self.to,
            ..self
        }
    }

    // Whether the lines that wait must be written before the next step.
    pub fn full(self, out: &[u8]) -> bool
        requires { (self.out ≤ length out.now) × (length out.now ≤ most_buffer) }
        ensures { result ≡ false → Room self.out (length out.now) }
    {
        out.len() - self.out < STEP_BYTES
    }

    // The lines that waited were written.
    pub fn emptied(self) -> Desk
        ensures { result ≡ emptied_desk self }
    {
        Desk { out: 0, ..self }
    }

    fn after(self, step: Step) -> Desk
        requires { (self.from + unwrap_or step.taken 0 ≤ self.to) × (self.place ≤ most_calls + 1) }
        ensures { result ≡ after_step self step }
    {
        Desk {
            from: self.from + step.taken.unwrap_or(0),
            out: step.end,
            place: self.place + 1,
            over: step.taken.is_none(),
            ..self
        }
    }

    // The opening, or the next call.
    pub fn step(self, window: &[u8], memory: &mut [u32], answer: &mut [u32], out: &mut [u8]) -> Desk
        requires { MayStep self (length window.now) (length out.old) × (length memory.old ≡ memory_room) × (length answer.old ≡ answer_words) }
        ensures { NextStep window.now self result memory.old memory.new out.old out.new }
    {
        let left = &window[self.from..self.to];
        if self.place == 0 {
            self.after(begin(left, memory, out))
        } else {
            self.after(turn(left, memory, answer, out, self.out, self.place))
        }
    }
}
