// The core's calls as C functions on numbers and slices, and nothing else. A slice is a pointer and a length. A reply has the refusal, or 0
// where the call is accepted, and then the stamp, the length, the start number, or 0 for a road. include/hailtrellis.h declares them for C.
#![tactic(auto)]

ghost use Rattle.std.specs.Prelude.{◌≡◌};
ghost use Rattle.answers.specs.Answered.{answered};
ghost use Rattle.calls.specs.Outcome.{Opened, Added, Moved, Removed, Claimed, Released, Asked, LookedUp};
ghost use Rattle.hailtrellis_c.specs.Replied.{reply_of, Replied};

use answers::Reply;

#[repr(C)]
#[derive(Clone, Copy)]
pub struct HailtrellisReply {
    pub code: u32,
    pub value: u32,
}

impl From<Reply> for HailtrellisReply {
    ghost from_gives = { λ reply r. r ≡ reply_of (answered reply) };

    fn from(reply: Reply) -> HailtrellisReply {
        let code = answers::number(reply);
        let value = answers::value(reply);
        HailtrellisReply { code, value }
    }
}

#[unsafe(no_mangle)]
pub extern "C" fn hailtrellis_open(map: &[u8], memory: &mut [u32], start: u32) -> HailtrellisReply
    ensures { Replied (λ a. Opened map.now memory.old start a memory.new) result }
{
    hailtrellis::open(map, memory, start).into()
}

#[unsafe(no_mangle)]
pub extern "C" fn hailtrellis_add(
    memory: &mut [u32],
    van: u32,
    from: u32,
    to: u32,
    offset: u32,
) -> HailtrellisReply
    ensures { Replied (λ a. Added memory.old van from to offset a memory.new) result }
{
    hailtrellis::add(memory, van, from, to, offset).into()
}

#[unsafe(no_mangle)]
pub extern "C" fn hailtrellis_move(
    memory: &mut [u32],
    van: u32,
    from: u32,
    to: u32,
    offset: u32,
) -> HailtrellisReply
    ensures { Replied (λ a. Moved memory.old van from to offset a memory.new) result }
{
    hailtrellis::move_van(memory, van, from, to, offset).into()
}

#[unsafe(no_mangle)]
pub extern "C" fn hailtrellis_remove(memory: &mut [u32], van: u32) -> HailtrellisReply
    ensures { Replied (λ a. Removed memory.old van a memory.new) result }
{
    hailtrellis::remove(memory, van).into()
}

#[unsafe(no_mangle)]
pub extern "C" fn hailtrellis_claim(
    memory: &mut [u32],
    van: u32,
    stamp: u32,
    desk: u32,
) -> HailtrellisReply
    ensures { Replied (λ a. Claimed memory.old van stamp desk a memory.new) result }
{
    hailtrellis::claim(memory, van, stamp, desk).into()
}

#[unsafe(no_mangle)]
pub extern "C" fn hailtrellis_release(memory: &mut [u32], van: u32, desk: u32) -> HailtrellisReply
    ensures { Replied (λ a. Released memory.old van desk a memory.new) result }
{
    hailtrellis::release(memory, van, desk).into()
}

#[unsafe(no_mangle)]
pub extern "C" fn hailtrellis_question(
    memory: &[u32],
    vertex: u32,
    k: u32,
    answer: &mut [u32],
) -> HailtrellisReply
    ensures { Replied (λ a. Asked memory.now vertex k answer.old a answer.new) result }
{
    hailtrellis::question(memory, vertex, k, answer).into()
}

#[unsafe(no_mangle)]
pub extern "C" fn hailtrellis_road(memory: &[u32], from: u32, to: u32) -> HailtrellisReply
    ensures { Replied (LookedUp memory.now from to) result }
{
    hailtrellis::road(memory, from, to).into()
}
