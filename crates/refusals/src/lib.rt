// What a change gets, but for the head, the ranges and the change count: how the van is to stand, or the first refusal that applies. The memory is only
// read. The tests are those of the definitions, on the words of the van and of the road; any words are taken.
// A memory and its counts are no struct: what reads is lent `&[u32]` and what changes `&mut [u32]`, and a struct holds only one of these.
#![tactic(auto)]

ghost use Rattle.std.specs.Prelude.{◌≡◌, ◌<◌};
ghost use Rattle.refusals.specs.Verdict.{desk_of, weight_in, placing, existing, free_one, removing, claiming, releasing, OnRoad, Adding, Moving, HasVerdict};

use answers::Refusal;
use cells::word;
use counts::Counts;
use fleet::Change;
use layout::RoadRecord;
use places::road_at;
use road_lookup::look_up;
use van_lists::VanWords;

fn road_weight(mem: &[u32], counts: Counts, road: u32) -> u32
    ensures { result ≡ weight_in mem.now counts road }
{
    word(mem, road_at(counts, road) + RoadRecord::WEIGHT)
}

// A place on the road from `from` to `to`; the van's first word is `state`. The three numbers of a place are fields of an add and of a move, and of no struct: the
// scope's `Change` has them so.
fn placing(
    mem: &[u32],
    counts: Counts,
    state: u32,
    from: u32,
    to: u32,
    offset: u32,
) -> Result<VanWords, Refusal>
    ensures { OnRoad mem.now counts from to (λ road. placing mem.now counts state road offset) result }
{
    let road = look_up(mem, counts, from, to)?;
    if road_weight(mem, counts, road) < offset {
        return Err(Refusal::OffsetAboveWeight);
    }
    Ok(VanWords {
        state,
        road,
        offset,
        stamp: 0,
    })
}

// The van, if it is there.
fn existing(old: VanWords) -> Result<VanWords, Refusal>
    ensures { result ≡ existing old }
{
    if old.state == 0 {
        Err(Refusal::NoSuchVan)
    } else {
        Ok(old)
    }
}

// The van, if it is there and no desk holds it.
fn free_one(old: VanWords) -> Result<VanWords, Refusal>
    ensures { result ≡ free_one old }
{
    let van = existing(old)?;
    if van.state != VanWords::FREE {
        return Err(Refusal::VanHeld);
    }
    Ok(van)
}

fn adding(
    mem: &[u32],
    counts: Counts,
    old: VanWords,
    from: u32,
    to: u32,
    offset: u32,
) -> Result<VanWords, Refusal>
    ensures { Adding mem.now counts old from to offset result }
{
    if old.state != 0 {
        return Err(Refusal::VanPresent);
    }
    placing(mem, counts, VanWords::FREE, from, to, offset)
}

fn moving(
    mem: &[u32],
    counts: Counts,
    old: VanWords,
    from: u32,
    to: u32,
    offset: u32,
) -> Result<VanWords, Refusal>
    ensures { Moving mem.now counts old from to offset result }
{
    let van = existing(old)?;
    placing(mem, counts, van.state, from, to, offset)
}

fn removing(old: VanWords) -> Result<VanWords, Refusal>
    ensures { result ≡ removing old }
{
    free_one(old)?;
    Ok(VanWords::ABSENT)
}

fn claiming(old: VanWords, stamp: u32, desk: u32) -> Result<VanWords, Refusal>
    requires { desk < 256 }
    ensures { result ≡ claiming old stamp desk }
{
    let van = free_one(old)?;
    if van.stamp != stamp {
        return Err(Refusal::StampDiffers);
    }
    Ok(VanWords {
        state: desk + 1,
        stamp: 0,
        ..van
    })
}

fn releasing(old: VanWords, desk: u32) -> Result<VanWords, Refusal>
    requires { desk < 256 }
    ensures { result ≡ releasing old desk }
{
    let van = existing(old)?;
    if van.state != desk + 1 {
        return Err(Refusal::NotHeldByDesk);
    }
    Ok(VanWords {
        state: VanWords::FREE,
        stamp: 0,
        ..van
    })
}

// How a van that stands as `old` says is to stand after the change. Its stamp is not told here.
pub fn judged(
    mem: &[u32],
    counts: Counts,
    old: VanWords,
    change: Change,
) -> Result<VanWords, Refusal>
    requires { desk_of change < 256 }
    ensures { HasVerdict mem.now counts old change result }
{
    match change {
        Change::Add {
            from,
            to,
            offset,
            ..
        } => adding(mem, counts, old, from, to, offset),
        Change::Move {
            from,
            to,
            offset,
            ..
        } => moving(mem, counts, old, from, to, offset),
        Change::Remove { .. } => removing(old),
        Change::Claim { stamp, desk, .. } => claiming(old, stamp, desk),
        Change::Release { desk, .. } => releasing(old, desk),
    }
}
