// A search over the parts, best first: from the leaf of the vertex asked at on, with bounds read from the rows.

ghost use Rattle.std.specs.Prelude.{◌≡◌, List, ℕ, ◌≤◌, ◌<◌, length, take, MatchOption};
ghost use Rattle.words.specs.Limits.{FAR};
ghost use Rattle.layout.specs.Layout.{rows_in_part, part_word};
ghost use Rattle.roads.specs.Map.{Map};
ghost use Rattle.fleet.specs.State.{State};
ghost use Rattle.fleet.specs.Question.{nearest};
ghost use Rattle.places.specs.Place.{counts_in};
ghost use Rattle.best_list.specs.Best.{offered_all};
ghost use Rattle.van_offers.specs.Offers.{row_offers};
ghost use Rattle.van_offers.specs.Genuine.{Genuine, list_in};
ghost use Rattle.question.specs.Kept.{BoundOutside, CannotClimb, Climbs, Searching, GoesOn, Ends, BeforeSearch};

use best_list::BestList;
use cells::put;
use far_sums::FAR;
use layout::{PartRecord, VertexRecord, part_word};
use part_bounds::open_up;
use part_keys::{PartsWaiting, WaitingPart};
use places::counts_in;
use row_distances::{relax_leaf, relax_own, way_out};
use row_lists::RowLists;
use van_offers::{offer_rows, vertex_word};

// A search between two turns: the parts that wait, the rows looked at last, the vans listed, the part climbed to, and the bound of what lies outside it.
// The memory and `dx` are lent to each method: a struct that holds a `&mut` would have to ensure at each that it holds the same one still.
#[derive(Clone, Copy)]
pub struct Search {
    pub waiting: PartsWaiting,
    pub lists: RowLists,
    pub best: BestList,
    pub part: u32,
    pub out: u32,
}

// The vans of a leaf's listed rows are offered.
fn offer_leaf(mem: &[u32], leaf: u32, dx: &[u32], lists: &RowLists, best: &mut BestList)
    ensures { (best.new.k ≡ best.old.k) × (list_in mem.now best.new ≡ offered_all best.old.k (list_in mem.now best.old) (row_offers mem.now (counts_in mem.now) (part_word mem.now leaf rows_in_part) dx.now (take lists.now.count lists.now.asked))) }
{
    let first = part_word(mem, leaf, PartRecord::ROWS);
    offer_rows(mem, counts_in(mem), first, lists.asked(), dx, best);
}

// The bound of what lies outside a part: FAR for the root.
fn bound_outside(mem: &[u32], part: u32, dx: &[u32]) -> u32
    ensures { BoundOutside mem.now part dx.now result }
{
    if part == 0 {
        return FAR;
    }
    way_out(mem, part_word(mem, part, PartRecord::PARENT), part, dx)
}

// The key of the nearest of the parts that wait, FAR where there is none.
fn key_of(nearest: Option<WaitingPart>) -> u32
    ensures { MatchOption nearest (result ≡ FAR) (λ w. result ≡ w.key) }
{
    nearest.map_or(FAR, |nearest| nearest.key)
}

impl Search {
    // The search climbs to the part above, where there is one: its siblings wait, from the place on that is given back.
    fn climb(&mut self, mem: &[u32], dx: &mut [u32]) -> Option<usize>
        ensures { MatchOption result (CannotClimb mem.now dx.old self.old self.new) (λ _. Climbs mem.now dx.old self.old dx.new self.new) }
    {
        let above = part_word(mem, self.part, PartRecord::PARENT);
        if self.part <= above {
            return None;
        }
        self.waiting.keep_out(self.part);
        open_up(mem, above, true, dx, &mut self.lists, &mut self.waiting);
        self.part = above;
        self.out = bound_outside(mem, above, dx);
        Some(self.waiting.n)
    }

    // The waiting part at place `at` is taken: a leaf is looked at, a part with children is opened up, and these wait from the place on that is given back.
    fn take_waiting(&mut self, mem: &[u32], dx: &mut [u32], at: usize) -> usize
        requires { at < self.old.waiting.n }
        ensures { GoesOn mem.now dx.old self.old dx.new self.new }
    {
        let q = self.waiting.give_up(at);
        let joined = self.waiting.n;
        if part_word(mem, q, PartRecord::CHILD) == 0 {
            relax_leaf(mem, q, dx, &mut self.lists);
            offer_leaf(mem, q, dx, &self.lists, &mut self.best);
            return joined;
        }
        open_up(mem, q, false, dx, &mut self.lists, &mut self.waiting);
        joined
    }

    // One turn. Where the last one opened up a part, whose children wait from `joined` on, the nearest of these is taken: it is as near as the part was. Else the
    // search ends where all that is left is farther than the limit, and only then; else it takes the nearest. It gives back from where on those that join wait,
    // and nothing where the search has ended.
    fn turn(&mut self, mem: &[u32], dx: &mut [u32], joined: usize) -> Option<usize>
        ensures { MatchOption result (Ends mem.now dx.old self.old self.new) (λ _. GoesOn mem.now dx.old self.old dx.new self.new) }
    {
        if let Some(child) = self.waiting.nearest(joined) {
            return Some(self.take_waiting(mem, dx, child.at));
        }
        let next = self.waiting.nearest(0);
        let key = key_of(next);
        if self.best.limit() < self.out.min(key) {
            return None;
        }
        match next {
            Some(next) if next.key < self.out => Some(self.take_waiting(mem, dx, next.at)),
            _ => self.climb(mem, dx),
        }
    }

    // Turn by turn, until the search has ended.
    fn search_on(&mut self, mem: &[u32], dx: &mut [u32])
        ensures { (self.new.best.k ≡ self.old.best.k) × ((m : Map) (fleet : State) (x : ℕ) → Genuine m fleet mem.now → x < m.vertices → Searching m fleet x mem.now dx.old self.old → list_in mem.now self.new.best ≡ nearest m fleet x self.old.best.k) }
    {
        let mut joined = 0;
        // the proof names the loop by its label
        'turns: while let Some(next) = self.turn(mem, dx, joined) {
            joined = next;
        }
    }

    // The search at x, where no distance is known and nothing waits or is listed yet: from the leaf of x on, of which all vertices get their distances.
    pub fn search_at(&mut self, mem: &[u32], x: u32, dx: &mut [u32])
        requires { BeforeSearch dx.old self.old }
        ensures { (self.new.best.k ≡ self.old.best.k) × ((m : Map) (fleet : State) → Genuine m fleet mem.now → m.vertices ≤ length dx.old → x < m.vertices → list_in mem.now self.new.best ≡ nearest m fleet x self.old.best.k) }
    {
        let counts = counts_in(mem);
        let leaf = vertex_word(mem, counts, x, VertexRecord::LEAF);
        let place = vertex_word(mem, counts, x, VertexRecord::PLACE);
        put(dx, x as usize, 0);
        relax_own(mem, leaf, place as usize, dx, &mut self.lists);
        offer_leaf(mem, leaf, dx, &self.lists, &mut self.best);
        self.waiting.keep_out(leaf);
        self.part = leaf;
        self.out = bound_outside(mem, leaf, dx);
        self.search_on(mem, dx);
    }
}
