// The roads of record 4, and the rules for them: the test for refusal 4.
#![tactic(auto)]

ghost use Rattle.std.specs.Prelude.{◌≡◌};
ghost use Rattle.maps.specs.Bytes.{road_shown};
ghost use Rattle.maps.specs.Rules.{road_fits, road_before};
ghost use Rattle.words.specs.Lists.{up_to, all};
ghost use Rattle.map_roads.specs.Road.{road, road_test};

use map_bytes::{number2, number4};

// Contracts write it as `road from to weight`, a record of the definitions: three clauses of this crate, too few for a model.
#[derive(Clone, Copy)]
pub struct Road {
    pub from: u32,
    pub to: u32,
    pub weight: u32,
}

impl Road {
    pub const MOST_WEIGHT: u32 = 1000000;

    // Road i of the body of record 4.
    #[tactic(auto, unfolding(maps::specs::Bytes::road_shown))]
    pub fn read(body: &[u8], i: u32) -> Self
        ensures { road result.from result.to result.weight ≡ road_shown body.now i }
    {
        let at = 8 * (i as usize);
        Self {
            from: number2(body, at),
            to: number2(body, at + 2),
            weight: number4(body, at + 4),
        }
    }

    // Both ends exist and differ, and the weight is 1 to 1,000,000.
    #[tactic(auto, unfolding(maps::specs::Rules::road_fits))]
    fn fits(self, vertices: u32) -> bool
        ensures { result ≡ road_fits vertices (road self.from self.to self.weight) }
    {
        self.from < vertices
            && self.to < vertices
            && self.from != self.to
            && (1..=Road::MOST_WEIGHT).contains(&self.weight)
    }

    // The road stands strictly before the next by (from, to).
    #[tactic(auto, unfolding(maps::specs::Rules::road_before))]
    fn comes_before(self, next: Road) -> bool
        ensures { result ≡ road_before (road self.from self.to self.weight) (road next.from next.to next.weight) }
    {
        (self.from, self.to) < (next.from, next.to)
    }
}

// Road i keeps the rules, and stands after the road before it.
#[tactic(auto, unfolding(crate::specs::Road::road_test))]
fn road_fits(body: &[u8], vertices: u32, i: u32) -> bool
    ensures { result ≡ road_test body.now vertices i }
{
    let road = Road::read(body, i);
    road.fits(vertices) && (i == 0 || Road::read(body, i - 1).comes_before(road))
}

// Each of the `roads` roads that the body of record 4 shows keeps the rules.
pub fn roads_fit(body: &[u8], vertices: u32, roads: u32) -> bool
    ensures { result ≡ all (road_test body.now vertices) (up_to roads) }
{
    (0..roads).all(|i| road_fits(body, vertices, i))
}
