// The free vans that head for a vertex, linked in rising van number: the vertex's record has the first, a van's record the next.
// A van is taken out of such a list, put in, or written anew in its place. Every function says what it does to any list of words, so forged
// words harm nothing; what that means of the words of a fleet is proved about the definitions.
// A memory and its counts are no struct: what reads is lent `&[u32]` and what changes `&mut [u32]`, and a struct holds only one of these.
#![tactic(auto)]

ghost use Rattle.std.specs.Prelude.{◌≡◌, ◌<◌};
ghost use Rattle.words.specs.Limits.{vans};
ghost use Rattle.van_lists.specs.Slot.{stamped};
ghost use Rattle.van_lists.specs.Walk.{van_in, behind, van_written, relinked, taken_out, put_in};

use cells::{put, word};
use counts::Counts;
use layout::{VanRecord, VertexRecord};
use places::{van_at, vertex_at};

// The first four words of a van's record.
#[derive(Clone, Copy, Debug, PartialEq, Eq)]
pub struct VanWords {
    // 0 absent, 1 free, 1 + desk held; no enum, since the words of a forged memory may be any
    pub state: u32,
    pub road: u32,
    pub offset: u32,
    pub stamp: u32,
}

impl VanWords {
    // Van numbers are below this.
    pub const VANS: u32 = VanRecord::VANS;

    pub const MOST_DESK: u32 = 255;

    // The change count, and so the last stamp, at which no change is accepted any more.
    pub const LAST_STAMP: u32 = 4294967295;

    pub const FREE: u32 = 1;

    pub const ABSENT: VanWords = VanWords {
        state: 0,
        road: 0,
        offset: 0,
        stamp: 0,
    };

    // The same under another stamp; an absent van has none.
    pub fn stamped(self, stamp: u32) -> VanWords
        ensures { result ≡ stamped self stamp }
    {
        if self.state == 0 {
            VanWords::ABSENT
        } else {
            VanWords { stamp, ..self }
        }
    }
}

pub fn van_in(mem: &[u32], counts: Counts, van: u32) -> VanWords
    ensures { result ≡ van_in mem.now counts van }
{
    let at = van_at(counts, van);
    VanWords {
        state: word(mem, at),
        road: word(mem, at + VanRecord::ROAD),
        offset: word(mem, at + VanRecord::OFFSET),
        stamp: word(mem, at + VanRecord::STAMP),
    }
}

// The address of the link of the vertex's list that the van belongs behind. At most `van` links are taken, so a ring of links ends too.
fn behind(mem: &[u32], counts: Counts, vertex: u32, van: u32) -> usize
    ensures { result ≡ behind mem.now counts vertex van }
{
    let mut at = vertex_at(counts, vertex) + VertexRecord::VANS;
    for _ in 0..van {
        let Some(other) = word(mem, at).checked_sub(1) else {
            return at;
        };
        if van <= other {
            return at;
        }
        at = van_at(counts, other) + VanRecord::NEXT;
    }
    at
}

// The van's record is written anew, but for its link. Each word is a store of its own: a forged head's memory may end within the record.
pub fn write_van(mem: &mut [u32], counts: Counts, van: u32, words: VanWords)
    ensures { mem.new ≡ van_written mem.old counts van words }
{
    let at = van_at(counts, van);
    put(mem, at, words.state);
    put(mem, at + VanRecord::ROAD, words.road);
    put(mem, at + VanRecord::OFFSET, words.offset);
    put(mem, at + VanRecord::STAMP, words.stamp);
}

// The link at `before` goes on to `next` and the van's own to `link`, and the van stands as `words` say.
fn write_links(
    mem: &mut [u32],
    counts: Counts,
    van: u32,
    before: usize,
    next: u32,
    link: u32,
    words: VanWords,
)
    ensures { mem.new ≡ van_written (relinked mem.old counts van before next link) counts van words }
{
    put(mem, before, next);
    put(mem, van_at(counts, van) + VanRecord::NEXT, link);
    write_van(mem, counts, van, words);
}

// A free van leaves the list of the vertex that it heads for, and stands as `words` say.
#[tactic(auto, unfolding(crate::specs::Walk::taken_out))]
pub fn take_out(mem: &mut [u32], counts: Counts, van: u32, vertex: u32, words: VanWords)
    ensures { mem.new ≡ taken_out mem.old counts van vertex words }
{
    let before = behind(mem, counts, vertex, van);
    let next = word(mem, van_at(counts, van) + VanRecord::NEXT);
    write_links(mem, counts, van, before, next, 0, words);
}

// A van that is not free enters the list of a vertex, and stands as `words` say.
#[tactic(auto, unfolding(crate::specs::Walk::put_in))]
pub fn put_in(mem: &mut [u32], counts: Counts, van: u32, vertex: u32, words: VanWords)
    requires { van < vans }
    ensures { mem.new ≡ put_in mem.old counts van vertex words }
{
    let before = behind(mem, counts, vertex, van);
    let next = word(mem, before);
    write_links(mem, counts, van, before, van + 1, next, words);
}
