// The lift of each vertex and the size of each part of a map that keeps the other rules, and the border limit: the last test for refusal 3.
#![tactic(auto)]

ghost use Rattle.std.specs.Prelude.{◌≡◌, ℕ, ◌<◌, ◌≤◌, length};
ghost use Rattle.words.specs.Limits.{most_vertices, most_parts};
ghost use Rattle.words.specs.Lists.{up_to, word, all};
ghost use Rattle.roads.specs.Map.{Map};
ghost use Rattle.map_borders.specs.Lift.{most_steps, meet, lifted, Lifted};
ghost use Rattle.map_borders.specs.Mark.{Marked, BordersCounted, few_at};
ghost use Rattle.map_borders.specs.Sizes.{Given, Lifts, Sizes};

use cells::{lower, word};
use counts::Counts;
use map_parts::{Part, bump, tally_into};
use map_roads::Road;

// Each step to a parent lowers one of two part numbers.
const MOST_STEPS: u32 = 2 * Counts::MOST_PARTS;

// The lowest part that is both parts or lies above them.
fn common(parents: &[u32], a: u32, b: u32) -> u32
    ensures { result ≡ meet parents.now most_steps a b }
{
    let mut x = a;
    let mut y = b;
    for _ in 0..MOST_STEPS {
        if x == y {
            return x;
        }
        let high = x.max(y);
        x = x.min(y);
        y = word(parents, high as usize);
    }
    0
}

// Road i lowers the lifts of its ends to the lowest part that both stand in.
fn lift_road(parents: &[u32], leaves: &[u32], body: &[u8], i: u32, lifts: &mut [u32; 4096])
    ensures { lifts.new ≡ lifted parents.now leaves.now body.now i lifts.old }
{
    let road = Road::read(body, i);
    let x = common(
        parents,
        word(leaves, road.from as usize),
        word(leaves, road.to as usize),
    );
    lower(lifts, road.from as usize, x);
    lower(lifts, road.to as usize, x);
}

// Every road lowers the lifts of its ends. They start at 65,535, above every part's number, and no Option: each is the least of such numbers, and is only compared.
fn lift_all(parents: &[u32], leaves: &[u32], body: &[u8], roads: u32, lifts: &mut [u32; 4096])
    ensures { Lifted parents.now leaves.now body.now roads lifts.new }
{
    lifts.fill(Part::NONE);
    for i in 0..roads {
        lift_road(parents, leaves, body, i, lifts);
    }
}

// Counts a vertex for each part that it is a border of: the parents of the parts above its lift, from its leaf upward. Counts up to 4,000,000,000 leave room for one more from each part.
fn mark(parents: &[u32], leaf: u32, lift: u32, counts: &mut [u32; 512])
    requires { (q : ℕ) → word counts.old q ≤ 4000000000 }
    ensures { Marked parents.now lift leaf counts.old counts.new }
{
    let mut part = leaf;
    for _ in 0..Counts::MOST_PARTS {
        if part <= lift {
            return;
        }
        part = word(parents, part as usize);
        bump(counts, part);
    }
}

// Counts every vertex for each part that it is a border of. They start as `tally_into` left them: none above 65,536.
fn count_all(
    parents: &[u32],
    leaves: &[u32],
    lifts: &[u32; 4096],
    vertices: u32,
    counts: &mut [u32; 512],
)
    requires { (vertices ≤ most_vertices) × ((q : ℕ) → word counts.old q ≤ 65536) }
    ensures { BordersCounted parents.now leaves.now lifts.now vertices counts.old counts.new }
{
    for v in 0..vertices {
        mark(parents, word(leaves, v as usize), lifts[v as usize], counts);
    }
}

// The lift of each vertex; and the number of rows of each part, which is the vertices that stand in it, which only a leaf
// has, and its borders, which only a non-leaf part has.
#[derive(Drop)]
pub struct Measures {
    pub lifts: [u32; 4096],
    pub sizes: [u32; 512],
}

impl Measures {
    // The same as `measure` gives, in place of what they were: an array that is lent is copied nowhere.
    pub fn take(&mut self, parents: &[u32], leaves: &[u32], body: &[u8], vertices: u32, roads: u32)
        requires { vertices ≤ most_vertices }
        ensures { (length self.new.lifts ≡ most_vertices) × (length self.new.sizes ≡ most_parts) × ((m : Map) (parts : ℕ) → Given m parents.now leaves.now body.now vertices roads parts → Lifts m self.new.lifts × Sizes m self.new.sizes) }
    {
        lift_all(parents, leaves, body, roads, &mut self.lifts);
        tally_into(leaves, vertices, &mut self.sizes);
        count_all(parents, leaves, &self.lifts, vertices, &mut self.sizes);
    }
}

// Five parameters and no type that holds them: callers may have any words and any bytes, within no limits but that of `vertices`.
pub fn measure(parents: &[u32], leaves: &[u32], body: &[u8], vertices: u32, roads: u32) -> Measures
    requires { vertices ≤ most_vertices }
    ensures { (length result.lifts ≡ most_vertices) × (length result.sizes ≡ most_parts) × ((m : Map) (parts : ℕ) → Given m parents.now leaves.now body.now vertices roads parts → Lifts m result.lifts × Sizes m result.sizes) }
{
    let mut measures = Measures {
        lifts: [0; 4096],
        sizes: [0; 512],
    };
    measures.take(parents, leaves, body, vertices, roads);
    measures
}

// None of the parts has more than 128 rows. Of `Measures` only the sizes are looked at, so only these are asked for.
pub fn sizes_fit(sizes: &[u32; 512], parts: u32) -> bool
    requires { parts ≤ most_parts }
    ensures { result ≡ all (few_at sizes.now) (up_to parts) }
{
    sizes[..parts as usize]
        .iter()
        .all(|size| *size <= Part::MOST_BORDERS)
}
