// From the bytes of an accepted map to all sections of its memory but the distance tables.
#![tactic(auto)]

ghost use Rattle.std.specs.Prelude.{◌≡◌, ◌≤◌, length};
ghost use Rattle.words.specs.Limits.{most_vertices, most_roads, most_parts};
ghost use Rattle.roads.specs.Map.{Map};
ghost use Rattle.maps.specs.Judge.{sound, judge};
ghost use Rattle.opening_sections.specs.Counted.{Counted};
ghost use Rattle.opening_sections.specs.Sections.{Sections};

use map_borders::Measures;
use map_judge::Sound;
use map_parts::ShownMap;
use opening_sections::write_sections;

// The map that the bytes show, with the counts and the need that were found; the memory has as many words as that.
pub fn write_map(map: &[u8], found: Sound, start: u32, mem: &mut [u32])
    requires { (found.counts.vertices ≤ most_vertices) × (found.counts.roads ≤ most_roads) × (found.counts.parts ≤ most_parts) }
    ensures { (m : Map) → judge map.now ≡ sound m → Counted m found.counts.vertices found.counts.roads found.counts.parts found.need → length mem.old ≡ found.need → Sections m start mem.new }
{
    // Not by `ShownMap::read` and `measure`: the arrays that a function gives are copied.
    let mut shown = ShownMap {
        counts: found.counts,
        parents: [0; 512],
        leaves: [0; 4096],
        body: map,
    };
    shown.show(map);
    let mut measures = Measures {
        lifts: [0; 4096],
        sizes: [0; 512],
    };
    measures.take(
        &shown.parents,
        &shown.leaves,
        shown.body,
        shown.counts.vertices,
        shown.counts.roads,
    );
    write_sections(
        &shown.parents,
        &shown.leaves,
        shown.body,
        &measures.lifts,
        &measures.sizes,
        shown.counts,
        found.need,
        start,
        mem,
    );
}
