// The section of the vertices, in one pass over them: each takes the next place in its leaf, and the first road out is found by going on
// from that of the vertex before.
#![tactic(auto)]

ghost use Rattle.std.specs.Prelude.{◌≡◌, ◌+◌, ◌%◌, ◌^◌, ◌≤◌, slice_set};
ghost use Rattle.words.specs.Limits.{most_vertices, most_roads};
ghost use Rattle.words.specs.Lists.{word};
ghost use Rattle.roads.specs.Map.{Map};
ghost use Rattle.opening_vertices.specs.Vertices.{Skipped, VerticesReady, VerticesStand};

use cells::{put, word};
use layout::VertexRecord;
use map_roads::Road;
use records::put_words;
use rows::Row;

// The first road from `first` on that does not start below v; the number of roads, if all of them do.
fn skip(body: &[u8], roads: u32, first: u32, v: u32) -> u32
    requires { first ≤ roads }
    ensures { Skipped body.now roads first v result }
{
    (first..roads)
        .find(|r| v <= Road::read(body, *r).from)
        .unwrap_or(roads)
}

// The next place in a leaf.
fn next_place(places: &mut [u32], leaf: u32) -> u32
    ensures { (result ≡ word places.old leaf) × (places.new ≡ slice_set places.old leaf ((result + 1) % 2 ^ 32)) }
{
    let at = leaf as usize;
    let place = word(places, at);
    put(places, at, place.wrapping_add(1));
    place
}

// The vertices of a map whose section starts at `base`, without vans; `ins` has the link from each to the first road into it, and
// `places`, all 0 before, a word for each part.
pub fn write_vertices(
    leaves: &[u32],
    body: &[u8],
    roads: u32,
    vertices: u32,
    base: u32,
    ins: &[u32],
    places: &mut [u32],
    mem: &mut [u32],
)
    requires { (roads ≤ most_roads) × (vertices ≤ most_vertices) × (base ≤ 65536) }
    ensures { (m : Map) → VerticesReady m leaves.now body.now roads vertices base ins.now places.old mem.old → VerticesStand m vertices mem.old mem.new }
{
    let mut road = 0;
    for v in 0..vertices {
        road = skip(body, roads, road, v);
        let leaf = word(leaves, v as usize);
        let place = next_place(places, leaf);
        let link = word(ins, v as usize);
        let at = base as usize + VertexRecord::WORDS * v as usize;
        put_words(
            mem,
            at,
            [leaf, place, road, link, 0, Row::NO_VERTEX, Row::FAR, 0],
        );
    }
}
