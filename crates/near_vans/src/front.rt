// The vertices around the caller that a search has reached: which of them were taken, and which wait, each with a label.
use counts::Counts;
use far_sums::far_sum;
use layout::RoadRecord;
use places::road_at;
use std::marker::Model;

// How many vertices can wait, and how many roads into a vertex are looked at.
const ROOM: usize = 128;

const MOST_ROADS: usize = 64;

// How many vertices a map has at most.
const VERTICES: u32 = Counts::MOST_VERTICES;

// In `at`: a vertex that was taken. Else 0, or 1 + the vertex's place among those that wait.
const TAKEN: u8 = 255;

// A vertex that waits, with its label.
#[derive(Clone, Copy)]
struct WaitingVertex {
    label: u32,
    vertex: u32,
}

// The first `len` wait. A vertex has one byte in `at`, since 4,096 of them are cleared for each search.
#[derive(Drop)]
pub struct Front {
    at: [u8; 4096],
    waiting: [WaitingVertex; ROOM],
    len: usize,
}

impl Model for Front {
    ghost use Rattle.std.specs.Prelude.{◌≤◌, map};
    ghost use Rattle.near_vans.specs.Around.{Waits};

    ghost Value = { Waits };

    ghost view = { λ f. record { at = f.at; labels = map (λ w. w.label) f.waiting; vertices = map (λ w. w.vertex) f.waiting; n = f.len } };

    ghost invariant = { λ f. f.len ≤ 128 };
}

impl Front {
    ghost use Rattle.std.specs.Prelude.{◌≡◌, ◌%◌, ◌<◌, IfSome, MatchOption};
    ghost use Rattle.words.specs.Lists.{word};
    ghost use Rattle.near_vans.specs.Around.{NothingTaken, LeastLabel, Taken, HasPlace, Met, MetAll};

    // No vertex was taken, and none waits.
    pub fn new() -> Self
        ensures { NothingTaken result }
    {
        Front {
            at: [0; 4096],
            waiting: [WaitingVertex {
                label: 0,
                vertex: 0,
            }; ROOM],
            len: 0,
        }
    }

    // The place of the least label, and that label, where any vertex waits. By `min_by_key` a search takes up to a seventh longer.
    pub fn least(&self) -> Option<(usize, u32)>
        ensures { MatchOption result (self.now.n ≡ 0) (λ (i, low). LeastLabel self.now.labels self.now.n i × (low ≡ word self.now.labels i)) }
    {
        if self.len == 0 {
            return None;
        }
        let mut place = 0;
        let mut low = self.waiting[0].label;
        for i in 1..self.len {
            let label = self.waiting[i].label;
            if label < low {
                low = label;
                place = i;
            }
        }
        Some((place, low))
    }

    // The vertex at place i is taken: the last of those that wait gets its place.
    pub fn take(&mut self, i: usize) -> u32
        requires { i < self.old.n }
        ensures { Taken i self.old self.new result }
    {
        self.len -= 1;
        let v = self.waiting[i].vertex;
        let moved = self.waiting[self.len];
        self.waiting[i] = moved;
        self.at[(moved.vertex % VERTICES) as usize] = (i + 1) as u8;
        self.at[(v % VERTICES) as usize] = TAKEN;
        v
    }

    // The place at which vertex u waits.
    #[tactic(auto, using(crate::proofs::Places::vertex_at))]
    fn place_of(&self, u: usize) -> Option<usize>
        requires { u < 4096 }
        ensures { HasPlace u self.now result }
    {
        let i = usize::from(self.at[u]).checked_sub(1)?;
        if i < self.len && self.waiting[i].vertex as usize == u {
            Some(i)
        } else {
            None
        }
    }

    // A vertex was met at distance `far`: it waits now, with no more than that, if it was not taken. There may be no room: None, and `?`
    // gives up the search, as for whoever asked it.
    pub fn meet(&mut self, vertex: u32, far: u32) -> Option<()>
        ensures { IfSome result (λ _. Met (vertex % 4096) far self.old self.new) }
    {
        let u = (vertex % VERTICES) as usize;
        if self.at[u] == TAKEN {
            return Some(());
        }
        if let Some(i) = self.place_of(u) {
            if far < self.waiting[i].label {
                self.waiting[i].label = far;
            }
            return Some(());
        }
        if self.len == ROOM {
            return None;
        }
        self.waiting[self.len] = WaitingVertex {
            label: far,
            vertex: u as u32,
        };
        self.len += 1;
        self.at[u] = self.len as u8;
        Some(())
    }

    // The roads that end at a vertex, of which `first` is the link to the first, where the vertex was taken at distance `near`: those that they come from
    // are met. There may be no room, or too many roads.
    pub fn meet_all(&mut self, mem: &[u32], counts: Counts, first: u32, near: u32) -> Option<()>
        ensures { IfSome result (λ _. MetAll mem.now counts first near self.old self.new) }
    {
        let mut link = first;
        for _ in 0..MOST_ROADS {
            let Some(number) = link.checked_sub(1) else {
                return Some(());
            };
            let r = road_at(counts, number);
            let road = mem.get(r..r + RoadRecord::WORDS)?;
            let far = far_sum(near, road[RoadRecord::WEIGHT]);
            link = road[RoadRecord::NEXT];
            self.meet(road[RoadRecord::FROM], far)?;
        }
        None
    }
}
