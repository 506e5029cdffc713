// What the bytes of a map get: a refusal 1 to 4, in the scope's order, or its counts and the memory that it needs. Any
// bytes are judged, with arrays of the function's own.
#![tactic(auto)]

ghost use Rattle.std.specs.Prelude.{◌≡◌, ℕ, ◌<◌, ◌≤◌, Err, IfErr, IfOk, length, slice_index, EachIndex, sum_by};
ghost use Rattle.words.specs.Lists.{word};
ghost use Rattle.roads.specs.Map.{Map};
ghost use Rattle.maps.specs.Bytes.{counts_of, roads_of};
ghost use Rattle.maps.specs.Judge.{rest_fits, judge};
ghost use Rattle.map_parts.specs.Bodies.{the_counts, Limited};
ghost use Rattle.map_parts.specs.Part.{ShowsPartsOf};
ghost use Rattle.map_judge.specs.Need.{size_words, need_of};
ghost use Rattle.map_judge.specs.Verdict.{said, due, ruled, CountsShown};

use answers::Refusal;
use counts::Counts;
use map_borders::{Measures, sizes_fit};
use map_bytes::{is_record, number2};
use map_parts::ShownMap;
use map_roads::roads_fit;

// The numbers of the need, as document 01 writes its formula: judging knows a memory's size, and not where its records stand.
const HEAD_WORDS: u32 = 64;

const VANS: u32 = 1024;

// A map that keeps every rule: its counts, and the words of memory that it needs.
#[derive(Clone, Copy)]
pub struct Sound {
    pub counts: Counts,
    pub need: u32,
}

// The counts that record 1 shows.
#[tactic(auto, unfolding(maps::specs::Bytes::counts_of))]
fn counts_of(map: &[u8]) -> Counts
    ensures { (the_counts result.vertices result.roads result.parts ≡ counts_of map.now) × (result.vertices < 65536) × (result.roads < 65536) × (result.parts < 65536) }
{
    Counts {
        vertices: number2(map, 6),
        roads: number2(map, 8),
        parts: number2(map, 10),
    }
}

// Records 2, 3 and 4 have the lengths that the counts ask for, and nothing follows.
#[tactic(auto, unfolding(maps::specs::Judge::rest_fits))]
fn records_fit(map: &[u8], counts: Counts) -> bool
    requires { (counts.vertices < 65536) × (counts.roads < 65536) × (counts.parts < 65536) }
    ensures { result ≡ rest_fits map.now (the_counts counts.vertices counts.roads counts.parts) }
{
    let length2 = 2 + 2 * counts.parts;
    let length3 = 2 + 2 * counts.vertices;
    let length4 = 2 + 8 * counts.roads;
    let start3 = 16 + length2;
    let start4 = start3 + 4 + length3;
    is_record(map, 12, 2, length2)
        && is_record(map, start3, 3, length3)
        && is_record(map, start4, 4, length4)
        && map.len() == (start4 + 4 + length4) as usize
}

// The counts of a map whose records have the lengths that they ask for.
fn shown_counts(map: &[u8]) -> Result<Counts, Refusal>
    ensures shown { IfOk result (λ counts. CountsShown map.now counts) }
    ensures refused { IfErr result (λ refusal. said (Err refusal) ≡ due (judge map.now)) }
{
    if !is_record(map, 0, 1, 8) {
        return Err(Refusal::MapRecord);
    }
    let counts = counts_of(map);
    if !counts.fit() {
        return Err(Refusal::MapCounts);
    }
    if !records_fit(map, counts) {
        return Err(Refusal::MapRecord);
    }
    Ok(counts)
}

// The words of the distance table and of the rows of a part with so many rows.
fn part_words(size: u32) -> u32
    requires { size ≤ 128 }
    ensures { (result ≡ size_words size) × (result ≤ 16896) }
{
    size * size + 4 * size
}

// The words of all parts with so many rows.
fn table_words(sizes: &[u32]) -> u32
    requires { (length sizes.now ≤ 512) × EachIndex sizes.now (λ p. slice_index sizes.now p ≤ 128) }
    ensures { result ≡ sum_by size_words sizes.now }
{
    sizes.iter().map(|size| part_words(*size)).sum()
}

// The words of memory that a map with these counts and so many rows in each part needs.
fn need(counts: Counts, sizes: &[u32; 512]) -> u32
    requires { Limited (the_counts counts.vertices counts.roads counts.parts) × ((p : ℕ) → p < counts.parts → word sizes.now p ≤ 128) }
    ensures { result ≡ need_of (the_counts counts.vertices counts.roads counts.parts) sizes.now }
{
    let tables = table_words(&sizes[..counts.parts as usize]);
    HEAD_WORDS + 8 * (counts.parts + counts.vertices) + 4 * counts.roads + 8 * VANS + tables
}

// The judgement by the rules of the map that is shown.
fn judge_rules(shown: &ShownMap) -> Result<Sound, Refusal>
    requires { 1 ≤ shown.now.counts.parts }
    ensures { (m : Map) → ShowsPartsOf m shown.now.parents shown.now.leaves shown.now.counts.vertices shown.now.counts.parts → m.roads ≡ roads_of shown.now.counts.roads shown.now.body.now → said result ≡ ruled m }
{
    let counts = shown.counts;
    if !shown.parts_fit() {
        return Err(Refusal::MapParts);
    }
    if !roads_fit(shown.body, counts.vertices, counts.roads) {
        return Err(Refusal::MapRoads);
    }
    // Not by `measure`: the arrays that a function gives are copied.
    let mut measures = Measures {
        lifts: [0; 4096],
        sizes: [0; 512],
    };
    measures.take(
        &shown.parents,
        &shown.leaves,
        shown.body,
        counts.vertices,
        counts.roads,
    );
    if !sizes_fit(&measures.sizes, counts.parts) {
        return Err(Refusal::MapParts);
    }
    Ok(Sound {
        counts,
        need: need(counts, &measures.sizes),
    })
}

// The counts and the need of the sound map that the bytes show; or the refusal that they get.
pub fn judge_map(map: &[u8]) -> Result<Sound, Refusal>
    ensures { said result ≡ due (judge map.now) }
{
    let counts = shown_counts(map)?;
    // Not by `ShownMap::read`: the arrays that a function gives are copied.
    let mut shown = ShownMap {
        counts,
        parents: [0; 512],
        leaves: [0; 4096],
        body: map,
    };
    shown.show(map);
    judge_rules(&shown)
}
