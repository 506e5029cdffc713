// The map that bytes show, and the rules for its parts but for the border limit: the first test for refusal 3.
#![tactic(auto)]

ghost use Rattle.std.specs.Prelude.{◌≡◌, ℕ, ◌<◌, ◌≤◌};
ghost use Rattle.words.specs.Limits.{most_parts};
ghost use Rattle.words.specs.Lists.{up_to, word, all};
ghost use Rattle.roads.specs.Map.{Map};
ghost use Rattle.maps.specs.Rules.{parts_fit};
ghost use Rattle.map_parts.specs.Part.{fallen, family, near, part_test, standing, ShowsPartsOf};
ghost use Rattle.map_parts.specs.Tally.{bumped, Tallied};

mod shown;

use cells::word;
pub use shown::ShownMap;

// How many children a part has, and how many vertices stand in it.
#[derive(Clone, Copy)]
pub struct Part {
    pub children: u32,
    pub vertices: u32,
}

impl Part {
    // The parent of the root: as a map's bytes have it, and no Option, since any other number is refused there.
    pub const NONE: u32 = 65535;

    pub const FEWEST_CHILDREN: u32 = 2;

    pub const MOST_CHILDREN: u32 = 8;

    pub const MOST_LEVELS: u32 = 16;

    pub const MOST_IN_LEAF: u32 = 32;

    pub const MOST_BORDERS: u32 = 128;

    // No children and 1 to 32 vertices, or 2 to 8 children.
    #[tactic(auto, unfolding(crate::specs::Part::family))]
    fn fits(self) -> bool
        ensures { result ≡ family self.children self.vertices }
    {
        match self.children {
            0 => (1..=Part::MOST_IN_LEAF).contains(&self.vertices),
            children => (Part::FEWEST_CHILDREN..=Part::MOST_CHILDREN).contains(&children),
        }
    }
}

// One more for part p.
#[tactic(auto, unfolding(crate::specs::Tally::bumped))]
pub fn bump(counts: &mut [u32; 512], p: u32)
    requires { (q : ℕ) → word counts.old q < 4294967295 }
    ensures { counts.new ≡ bumped counts.old p }
{
    let at = p as usize;
    // No `get_mut`: where that is `None`, a proof knows nothing of the array.
    if at < counts.len() {
        counts[at] += 1;
    }
}

// For each part, how many of the first n numbers are its number. A number past the end is 0.
pub fn tally(numbers: &[u32], n: u32) -> [u32; 512]
    requires { n < 65536 }
    ensures { Tallied numbers.now n result }
{
    let mut counts: [u32; 512] = [0; 512];
    tally_into(numbers, n, &mut counts);
    counts
}

// The same, in place of what the counts were: an array that is lent is copied nowhere.
pub fn tally_into(numbers: &[u32], n: u32, counts: &mut [u32; 512])
    requires { n < 65536 }
    ensures { Tallied numbers.now n counts.new }
{
    counts.fill(0);
    for i in 0..n {
        bump(counts, word(numbers, i as usize));
    }
}

impl<'a> ShownMap<'a> {
    // Part p is the root, or its parent's number is lower.
    #[tactic(auto, unfolding(crate::specs::Part::fallen))]
    fn parent_fits(&self, p: u32) -> bool
        ensures { result ≡ fallen self.now.parents p }
    {
        p == 0 || self.parent(p) < p
    }

    // The root is among the first 16 parts on the way up from p.
    fn near_root(&self, p: u32) -> bool
        ensures { result ≡ near self.now.parents 16 p }
    {
        let mut q = p;
        for _ in 0..Part::MOST_LEVELS {
            if q == 0 {
                return true;
            }
            q = self.parent(q);
        }
        false
    }

    // Part p is the root or its parent's number is lower, it is a leaf with 1 to 32 vertices or has 2 to 8 children, and its
    // level is 1 to 16.
    #[tactic(auto, unfolding(crate::specs::Part::part_test))]
    fn part_fits(&self, children: &[u32; 512], homes: &[u32; 512], p: u32) -> bool
        requires { p < most_parts }
        ensures { result ≡ part_test self.now.parents children.now homes.now p }
    {
        let at = p as usize;
        let part = Part {
            children: children[at],
            vertices: homes[at],
        };
        self.parent_fits(p) && part.fits() && self.near_root(p)
    }

    // Each part keeps its rules.
    fn tree_fits(&self, children: &[u32; 512], homes: &[u32; 512]) -> bool
        ensures { result ≡ all (part_test self.now.parents children.now homes.now) (up_to self.now.counts.parts) }
    {
        (0..self.counts.parts).all(|p| self.part_fits(children, homes, p))
    }

    // Vertex v stands in a part without children.
    #[tactic(auto, unfolding(crate::specs::Part::standing))]
    fn stands(&self, children: &[u32; 512], v: u32) -> bool
        ensures { result ≡ standing self.now.leaves children.now self.now.counts.parts v }
    {
        let leaf = self.leaf(v);
        leaf < self.counts.parts && children[leaf as usize] == 0
    }

    fn vertices_stand(&self, children: &[u32; 512]) -> bool
        ensures { result ≡ all (standing self.now.leaves children.now self.now.counts.parts) (up_to self.now.counts.vertices) }
    {
        (0..self.counts.vertices).all(|v| self.stands(children, v))
    }

    // The map keeps the rules for parts but for the border limit.
    pub fn parts_fit(&self) -> bool
        requires { 1 ≤ self.now.counts.parts }
        ensures { (m : Map) → ShowsPartsOf m self.now.parents self.now.leaves self.now.counts.vertices self.now.counts.parts → result ≡ parts_fit m }
    {
        if self.parent(0) != Part::NONE {
            return false;
        }
        // Two arrays, not one of `Part`: one `tally_into` counts either.
        let mut children: [u32; 512] = [0; 512];
        tally_into(&self.parents, self.counts.parts, &mut children);
        let mut homes: [u32; 512] = [0; 512];
        tally_into(&self.leaves, self.counts.vertices, &mut homes);
        self.tree_fits(&children, &homes) && self.vertices_stand(&children)
    }
}
