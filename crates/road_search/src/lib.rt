// The distances from one vertex to all others, by labels that fall: a vertex whose label fell waits, and is taken to relax its roads out.
// The result does not depend on the order in which the waiting vertices are taken.
#![tactic(auto)]

ghost use Rattle.std.specs.Prelude.{◌≡◌, ◌<◌, length, set};
ghost use Rattle.words.specs.Limits.{FAR, most_vertices};
ghost use Rattle.roads.specs.Dist.{relax_all};
ghost use Rattle.road_relax.specs.Relaxing.{wake_all};
ghost use Rattle.road_search.specs.Layout.{LaidMap, Measured, next_out, roads_out};

use far_sums::FAR;
use layout::{RoadRecord, VertexRecord};
use road_relax::relax_out;
use waiting::Waiting;

// The words that show a map's roads: `n` vertices from `vertices_at` on, and `count` roads from `roads_at` on.
#[derive(Drop)]
struct Roads<'a> {
    mem: &'a [u32],
    vertices_at: usize,
    n: usize,
    roads_at: usize,
    count: usize,
    ghost laid: { LaidMap mem.now vertices_at n roads_at count },
}

impl Roads<'_> {
    // The number after that of the last road out of `u`.
    fn next_out(&self, u: usize) -> usize
        requires { u < self.now.n }
        ensures { result ≡ next_out self.now.mem.now self.now.vertices_at self.now.n self.now.count u }
    {
        if u + 1 < self.n {
            return self.mem[self.vertices_at
                + VertexRecord::WORDS * (u + 1)
                + VertexRecord::ROADS] as usize;
        }
        self.count
    }

    // The vertex `u` is taken: it ceases to wait, and its roads out are relaxed.
    fn turn(&self, u: usize, labels: &mut [u32; 4096], waiting: &mut Waiting)
        requires u_lt_n { u < self.now.n }
        ensures labels_after { labels.new ≡ relax_all (roads_out self.now.mem.now self.now.vertices_at self.now.n self.now.roads_at self.now.count u) labels.old }
        ensures keys_after { waiting.new ≡ wake_all (roads_out self.now.mem.now self.now.vertices_at self.now.n self.now.roads_at self.now.count u) labels.old (set waiting.old u FAR) }
    {
        waiting.take(u);
        let first = self.mem[self.vertices_at
            + VertexRecord::WORDS * u
            + VertexRecord::ROADS] as usize;
        let next = self.next_out(u);
        relax_out(
            self.mem,
            self.roads_at + RoadRecord::WORDS * first,
            next - first,
            u,
            labels,
            waiting,
        );
    }
}

// The labels become the distances from `a` over the roads that `mem` shows: they are 0 at `a` and FAR elsewhere, and fall turn after turn until no vertex waits.
// Each number is a parameter of its own, as in the C interface.
pub fn distances(
    mem: &[u32],
    vertices_at: usize,
    n: usize,
    roads_at: usize,
    count: usize,
    a: usize,
    labels: &mut [u32; 4096],
)
    requires laid_map { LaidMap mem.now vertices_at n roads_at count }
    requires a_lt_n { a < n }
    ensures { Measured mem.now n roads_at count a labels.new }
{
    let roads = Roads {
        mem,
        vertices_at,
        n,
        roads_at,
        count,
    };
    let mut waiting = Waiting::none();
    waiting.wait_with(a, 0);
    *labels = [FAR; 4096];
    labels[a] = 0;
    while let Some(u) = waiting.pick(n) {
        roads.turn(u, labels, &mut waiting);
    }
}
