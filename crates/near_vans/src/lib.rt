// The nearest free vans where they are near: a search around the caller, vertex by vertex, over the roads that end at each, from the nearest
// vertex on. It gives up where that takes too many vertices.
#![tactic(auto)]

ghost use Rattle.std.specs.Prelude.{◌≡◌, ℕ, ◌≤◌, ◌<◌, IfSome};
ghost use Rattle.roads.specs.Map.{Map};
ghost use Rattle.fleet.specs.State.{State};
ghost use Rattle.fleet.specs.Question.{nearest};
ghost use Rattle.van_offers.specs.Genuine.{Genuine, list_in};

mod front;

use best_list::BestList;
use front::Front;
use layout::VertexRecord;
use places::counts_in;
use van_offers::{offer_vans, vertex_word};

// At most so many vertices are taken.
const MOST: usize = 128;

// The first k of all free vans that can reach x, in order of distance and then van number, unless the search is given up.
pub fn near_vans(mem: &[u32], x: u32, k: usize) -> Option<BestList>
    requires { (1 ≤ k) × (k ≤ 32) }
    ensures { IfSome result (λ best. (best.k ≡ k) × ((m : Map) (fleet : State) → Genuine m fleet mem.now → x < m.vertices → list_in mem.now best ≡ nearest m fleet x k)) }
{
    let counts = counts_in(mem);
    let mut front = Front::new();
    front.meet(x, 0)?;
    let mut list = BestList::new(k);
    for _ in 0..MOST {
        let Some((i, near)) = front.least() else {
            return Some(list);
        };
        if list.limit() < near {
            return Some(list);
        }
        let v = front.take(i);
        let link = vertex_word(mem, counts, v, VertexRecord::VANS);
        // most vertices have no van: for these the list's limit is not read once more
        if link != 0 {
            offer_vans(mem, counts, link, near, &mut list);
        }
        let first = vertex_word(mem, counts, v, VertexRecord::INTO);
        front.meet_all(mem, counts, first, near)?;
    }
    None
}
