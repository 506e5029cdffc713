// The parts that wait, by their keys.

ghost use Rattle.std.specs.Prelude.{◌≡◌, ◌+◌, ◌-◌, ◌≤◌, ◌<◌, set, MatchOption};
ghost use Rattle.words.specs.Limits.{FAR};
ghost use Rattle.words.specs.Lists.{word};
ghost use Rattle.cells.specs.Lowered.{lowered};
ghost use Rattle.part_keys.specs.Keys.{far_count, Nearest};

use cells::{lower, word};
use far_sums::FAR;

// The keys of all parts, FAR where one has none yet, and the parts that wait: the first n of `waits`. A part joins them when it gets its first key. FAR is the top of
// the order, so `min` and `<` need no case for a part without a key; distances have it for "none yet" likewise.
#[derive(Clone, Copy)]
pub struct PartsWaiting {
    pub keys: [u32; PartsWaiting::MOST],
    pub waits: [u32; PartsWaiting::MOST],
    pub n: usize,
    pub ghost room: { far_count keys + n ≤ 512 },
}

// One of the parts that wait, by its place, and its key.
#[derive(Clone, Copy)]
pub struct WaitingPart {
    pub at: usize,
    pub key: u32,
}

impl PartsWaiting {
    // A map has at most so many parts.
    pub const MOST: usize = 512;

    // The least key of the parts that wait, from the one at `from` on, and its place.
    pub fn nearest(&self, from: usize) -> Option<WaitingPart>
        ensures { MatchOption result (Nearest self.now.keys self.now.waits from self.now.n FAR from) (λ w. (w.key < FAR) × Nearest self.now.keys self.now.waits from self.now.n w.key w.at) }
    {
        let mut least = FAR;
        let mut at = from;
        for t in from..self.n {
            let key = word(&self.keys, self.waits[t] as usize);
            if key < least {
                least = key;
                at = t;
            }
        }
        if least < FAR {
            Some(WaitingPart { at, key: least })
        } else {
            None
        }
    }

    // The part at place `at` of those that wait is given up: the last of them takes its place.
    pub fn give_up(&mut self, at: usize) -> u32
        requires { at < self.old.n }
        ensures { (result ≡ word self.old.waits at) × (self.new.keys ≡ self.old.keys) × (self.new.waits ≡ set self.old.waits at (word self.old.waits (self.old.n - 1))) × (self.new.n ≡ self.old.n - 1) }
    {
        self.n -= 1;
        let part = self.waits[at];
        self.waits[at] = self.waits[self.n];
        part
    }

    // The part has a key from now on, so that it never joins those that wait.
    pub fn keep_out(&mut self, part: u32)
        ensures { (self.new.keys ≡ lowered self.old.keys part 0) × (self.new.waits ≡ self.old.waits) × (self.new.n ≡ self.old.n) }
    {
        lower(&mut self.keys, part as usize, 0);
    }
}
