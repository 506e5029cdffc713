// The road from one vertex to another, by binary search over the roads of the first; where there is none, whether there is one the other way.
// Any numbers and any words are taken.
#![tactic(auto)]

ghost use Rattle.std.specs.Prelude.{◌≡◌, IfErr};
ghost use Rattle.road_lookup.specs.Lookup.{end_in, first_road_in, FirstTo, Between};
ghost use Rattle.road_lookup.specs.Answer.{LookupTells, MissingRoad};

use answers::Refusal;
use cells::word;
use counts::Counts;
use layout::{RoadRecord, VertexRecord};
use places::{road_at, vertex_at};

// The end of a road.
pub fn road_end(mem: &[u32], counts: Counts, road: u32) -> u32
    ensures { result ≡ end_in mem.now counts road }
{
    word(mem, road_at(counts, road) + RoadRecord::TO)
}

// The number of a vertex's first road or, where none is, of a later vertex's; past the last vertex that of no road.
pub fn first_road(mem: &[u32], counts: Counts, vertex: u32) -> u32
    ensures { result ≡ first_road_in mem.now counts vertex }
{
    if vertex < counts.vertices {
        word(mem, vertex_at(counts, vertex) + VertexRecord::ROADS)
    } else {
        counts.roads
    }
}

// The first road, of those from `low` on and below `high`, that does not end before `to`.
fn first_to(mem: &[u32], counts: Counts, low: u32, high: u32, to: u32) -> u32
    ensures { FirstTo (end_in mem.now counts) low high to result }
{
    let mut from = low;
    let mut until = high;
    // no `partition_point`: the ends are one word of four in a memory that may be too short for its roads, and no slice of values
    while from < until {
        let middle = from + (until - from) / 2;
        if road_end(mem, counts, middle) < to {
            from = middle + 1;
        } else {
            until = middle;
        }
    }
    from
}

// The number of the road from `from` to `to`.
pub fn road_between(mem: &[u32], counts: Counts, from: u32, to: u32) -> Option<u32>
    ensures { Between mem.now counts from to result }
{
    if counts.vertices <= from {
        return None;
    }
    let low = first_road(mem, counts, from);
    let high = first_road(mem, counts, from + 1);
    let road = first_to(mem, counts, low, high, to);
    // in a forged memory a vertex may show roads past the last one
    if high <= road || counts.roads <= road {
        return None;
    }
    (road_end(mem, counts, road) == to).then_some(road)
}

// The number of the road from `from` to `to`, or whether only the other way is one. That is looked at only where there is none.
pub fn look_up(mem: &[u32], counts: Counts, from: u32, to: u32) -> Result<u32, Refusal>
    ensures tells { LookupTells mem.now counts from to result }
    ensures refusals { IfErr result MissingRoad }
{
    if let Some(road) = road_between(mem, counts, from, to) {
        return Ok(road);
    }
    let back = road_between(mem, counts, to, from);
    if back.is_some() {
        Err(Refusal::WrongWay)
    } else {
        Err(Refusal::NoRoad)
    }
}
