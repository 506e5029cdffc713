// The section of the roads, and the link from each vertex to the first road into it. The roads are walked from the last to the first,
// and each is put in front of the roads into the same vertex that come after it.
#![tactic(auto)]

ghost use Rattle.std.specs.Prelude.{◌≡◌, ◌+◌, ◌<◌, ◌≤◌, set};
ghost use Rattle.std.proofs.lemmas.List.Edits.{sets};
ghost use Rattle.words.specs.Limits.{most_roads};
ghost use Rattle.words.specs.Lists.{word};
ghost use Rattle.roads.specs.Map.{Map};
ghost use Rattle.maps.specs.Bytes.{road_shown};
ghost use Rattle.opening_roads.specs.Roads.{road_words, RoadsReady, RoadsStand};

use cells::{put, word};
use layout::RoadRecord;
use map_roads::Road;
use records::put_words;

// Road i, at `at`, in front of the roads into its end.
fn write_road(body: &[u8], i: u32, at: usize, ins: &mut [u32], mem: &mut [u32])
    requires { i < most_roads }
    ensures { (mem.new ≡ sets mem.old at (road_words (road_shown body.now i) (word ins.old (road_shown body.now i).to))) × (ins.new ≡ set ins.old (road_shown body.now i).to (i + 1)) }
{
    let road = Road::read(body, i);
    let end = road.to as usize;
    let next = word(ins, end);
    put_words(mem, at, [road.from, road.to, road.weight, next]);
    put(ins, end, i + 1);
}

// The roads of a map whose section starts at `base`; `ins`, all 0 before, has a word for each vertex.
pub fn write_roads(body: &[u8], roads: u32, base: u32, ins: &mut [u32], mem: &mut [u32])
    requires { (roads ≤ most_roads) × (base ≤ 65536) }
    ensures { (m : Map) → RoadsReady m body.now roads base ins.old mem.old → RoadsStand m 0 mem.old ins.new mem.new }
{
    for i in (0..roads).rev() {
        let at = base as usize + RoadRecord::WORDS * i as usize;
        write_road(body, i, at, ins, mem);
    }
}
