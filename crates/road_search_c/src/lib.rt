// The search for programs in other languages: it tests whatever words it is given, and runs where they show roads.
#![tactic(auto)]

ghost use Rattle.std.specs.Prelude.{◌≡◌, ◌↔◌, ◌+◌, ◌*◌, ◌≤◌, ◌<◌, ℕ, length, IsTrue};
ghost use Rattle.layout.specs.Layout.{words_in_vertex, words_in_road};
ghost use Rattle.road_search.specs.Layout.{first_out, LaidVertex, LaidRoad, LaidMap};
ghost use Rattle.road_relax.specs.Relaxing.{shown_road};
ghost use Rattle.road_search_c.specs.Answer.{Answered};

use layout::{RoadRecord, VertexRecord};
use road_search::distances;

// Words that may show roads: those of `n` vertices from `vertices_at` on, and of `count` roads from `roads_at` on, are within the memory.
// Beside `road_search::Roads`, of which more is known: that its words show roads.
#[derive(Drop)]
struct Words<'a> {
    mem: &'a [u32],
    vertices_at: usize,
    n: usize,
    roads_at: usize,
    count: usize,
    ghost vertices_fit: { vertices_at + words_in_vertex * n ≤ length mem.now },
    ghost roads_fit: { roads_at + words_in_road * count ≤ length mem.now },
}

impl Words<'_> {
    // The number of the first road out of `v`.
    fn first_out(&self, v: usize) -> usize
        requires { v < self.now.n }
        ensures { result ≡ first_out self.now.mem.now self.now.vertices_at v }
    {
        self.mem[self.vertices_at + VertexRecord::WORDS * v + VertexRecord::ROADS] as usize
    }

    // Whether vertex `v` is laid out as a search needs it.
    fn vertex_laid(&self, v: usize) -> bool
        requires { v < self.now.n }
        ensures { IsTrue result ↔ LaidVertex self.now.mem.now self.now.vertices_at self.now.n self.now.count v }
    {
        let first = self.first_out(v);
        first <= self.count && (v + 1 == self.n || first <= self.first_out(v + 1))
    }

    // Whether road `j` is. With this weight at most, the sum along a way of 4,096 vertices is a word.
    fn road_laid(&self, j: usize) -> bool
        requires { j < self.now.count }
        ensures { IsTrue result ↔ LaidRoad self.now.mem.now self.now.vertices_at self.now.n j (shown_road self.now.mem.now (self.now.roads_at + words_in_road * j)) }
    {
        let at = self.roads_at + RoadRecord::WORDS * j;
        let from = self.mem[at + RoadRecord::FROM] as usize;
        from < self.n
            && (self.mem[at + RoadRecord::TO] as usize) < self.n
            && self.mem[at + RoadRecord::WEIGHT] <= 1000000
            && self.first_out(from) <= j
            && (from + 1 == self.n || j < self.first_out(from + 1))
    }

    // Whether all vertices are.
    fn vertices_laid(&self) -> bool
        ensures { IsTrue result ↔ ((v : ℕ) → v < self.now.n → LaidVertex self.now.mem.now self.now.vertices_at self.now.n self.now.count v) }
    {
        (0..self.n).all(|v| self.vertex_laid(v))
    }

    // Whether all roads are.
    fn roads_laid(&self) -> bool
        ensures { IsTrue result ↔ ((j : ℕ) → j < self.now.count → LaidRoad self.now.mem.now self.now.vertices_at self.now.n j (shown_road self.now.mem.now (self.now.roads_at + words_in_road * j))) }
    {
        (0..self.count).all(|j| self.road_laid(j))
    }

    // Whether they show roads as a search needs them: with a label for each vertex.
    fn laid(&self) -> bool
        ensures { IsTrue result ↔ LaidMap self.now.mem.now self.now.vertices_at self.now.n self.now.roads_at self.now.count }
    {
        self.n <= 4096 && self.vertices_laid() && self.roads_laid()
    }
}

// Whether `count` records of `size` words from `at` on are within `len` words.
fn fits(len: usize, at: usize, size: usize, count: usize) -> bool
    ensures { IsTrue result ↔ at + size * count ≤ len }
{
    size.checked_mul(count)
        .and_then(|words| words.checked_add(at))
        .is_some_and(|end| end <= len)
}

// The labels become the distances from `a` where the words show roads and `a` is a vertex, and the answer is true; else it is false.
#[unsafe(no_mangle)]
pub extern "C" fn hailtrellis_road_search(
    mem: &[u32],
    vertices_at: usize,
    n: usize,
    roads_at: usize,
    count: usize,
    a: usize,
    labels: &mut [u32; 4096],
) -> bool
    ensures { Answered mem.now vertices_at n roads_at count a labels.old labels.new result }
{
    if !fits(mem.len(), vertices_at, VertexRecord::WORDS, n)
        || !fits(mem.len(), roads_at, RoadRecord::WORDS, count)
    {
        return false;
    }
    let words = Words {
        mem,
        vertices_at,
        n,
        roads_at,
        count,
    };
    if !words.laid() || n <= a {
        return false;
    }
    distances(mem, vertices_at, n, roads_at, count, a, labels);
    true
}
