// The core's eight calls, for any bytes, numbers and memory. Each contract is one outcome record of the definitions
// (crates/calls/specs/Outcome.antt); what follows for any run of calls is listed in proofs/Promises.antt.
#![tactic(auto)]

ghost use Rattle.answers.specs.Answered.{answered};
ghost use Rattle.calls.specs.Outcome.{Opened, Added, Moved, Removed, Claimed, Released, Asked, LookedUp};

use answers::Reply;
use fleet::Change;

// Opens the map: its distances and empty rows stand in the memory, the fleet is empty and the change count is the start number.
pub fn open(map: &[u8], memory: &mut [u32], start: u32) -> Reply
    ensures { Opened map.now memory.old start (answered result) memory.new }
{
    opening::open(map, memory, start)
}

// Places a free van.
pub fn add(memory: &mut [u32], van: u32, from: u32, to: u32, offset: u32) -> Reply
    ensures { Added memory.old van from to offset (answered result) memory.new }
{
    let added = Change::Add {
        van,
        from,
        to,
        offset,
    };
    changes::change(memory, added)
}

// Changes the place of a van, free or held.
pub fn move_van(memory: &mut [u32], van: u32, from: u32, to: u32, offset: u32) -> Reply
    ensures { Moved memory.old van from to offset (answered result) memory.new }
{
    let moved = Change::Move {
        van,
        from,
        to,
        offset,
    };
    changes::change(memory, moved)
}

// Takes out a free van.
pub fn remove(memory: &mut [u32], van: u32) -> Reply
    ensures { Removed memory.old van (answered result) memory.new }
{
    changes::change(memory, Change::Remove { van })
}

// Makes a free van held by a desk, if nothing has happened to it since it had this stamp.
pub fn claim(memory: &mut [u32], van: u32, stamp: u32, desk: u32) -> Reply
    ensures { Claimed memory.old van stamp desk (answered result) memory.new }
{
    changes::change(memory, Change::Claim { van, stamp, desk })
}

// Frees a van that the desk holds.
pub fn release(memory: &mut [u32], van: u32, desk: u32) -> Reply
    ensures { Released memory.old van desk (answered result) memory.new }
{
    changes::change(memory, Change::Release { van, desk })
}

// Lists the nearest k free vans that can reach the vertex: van, distance and stamp, three words each.
pub fn question(memory: &[u32], vertex: u32, k: u32, answer: &mut [u32]) -> Reply
    ensures { Asked memory.now vertex k answer.old (answered result) answer.new }
{
    ask::question(memory, vertex, k, answer)
}

// Tells of the road from `from` to `to`: it is one, only the other way is one, or neither is.
pub fn road(memory: &[u32], from: u32, to: u32) -> Reply
    ensures { LookedUp memory.now from to (answered result) }
{
    look::road(memory, from, to)
}
