// Where the records of vertices, roads and vans stand in a memory whose head has these counts. Any counts are taken. Memory and counts stand apart,
// here and above: a reading call is lent `&[u32]` and a change `&mut [u32]`, so one view of both would be two types.
#![tactic(auto)]

ghost use Rattle.std.specs.Prelude.{◌≡◌};
ghost use Rattle.layout.specs.Layout.{vertices_from, roads_from, vans_from};
ghost use Rattle.places.specs.Place.{counts_in, vertex_address, road_address, van_address};

use cells::word;
use counts::Counts;
use layout::{HeadRecord, PartRecord, RoadRecord, VanRecord, VertexRecord};

// The counts in the head of a memory.
pub fn counts_in(mem: &[u32]) -> Counts
    ensures { result ≡ counts_in mem.now }
{
    Counts {
        vertices: word(mem, HeadRecord::VERTICES),
        roads: word(mem, HeadRecord::ROADS),
        parts: word(mem, HeadRecord::PARTS),
    }
}

// Where the vertices start.
pub fn vertices_from(counts: Counts) -> usize
    ensures { result ≡ vertices_from counts.parts }
{
    HeadRecord::WORDS + PartRecord::WORDS * counts.parts as usize
}

pub fn roads_from(counts: Counts) -> usize
    ensures { result ≡ roads_from counts.parts counts.vertices }
{
    vertices_from(counts) + VertexRecord::WORDS * counts.vertices as usize
}

pub fn vans_from(counts: Counts) -> usize
    ensures { result ≡ vans_from counts.parts counts.vertices counts.roads }
{
    roads_from(counts) + RoadRecord::WORDS * counts.roads as usize
}

// One function for each kind, each with its own start: the contracts' names for the three addresses.
pub fn vertex_at(counts: Counts, vertex: u32) -> usize
    ensures { result ≡ vertex_address counts vertex }
{
    vertices_from(counts) + VertexRecord::WORDS * vertex as usize
}

pub fn road_at(counts: Counts, road: u32) -> usize
    ensures { result ≡ road_address counts road }
{
    roads_from(counts) + RoadRecord::WORDS * road as usize
}

pub fn van_at(counts: Counts, van: u32) -> usize
    ensures { result ≡ van_address counts van }
{
    vans_from(counts) + VanRecord::WORDS * van as usize
}
