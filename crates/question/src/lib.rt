// The k nearest free vans to a vertex: around the vertex where they are near, else best first over the parts, with bounds read from the rows.
#![tactic(auto)]

ghost use Rattle.std.specs.Prelude.{◌≡◌, ℕ, ◌≤◌, ◌<◌, ◌*◌, length};
ghost use Rattle.words.specs.Limits.{FAR};
ghost use Rattle.words.specs.Lists.{word};
ghost use Rattle.roads.specs.Map.{Map};
ghost use Rattle.fleet.specs.State.{State};
ghost use Rattle.fleet.specs.Question.{nearest};
ghost use Rattle.van_offers.specs.Genuine.{Genuine, list_in};
ghost use Rattle.question.specs.Kept.{list_written};

use best_list::BestList;
use cells::word;
use far_sums::FAR;
use layout::{HeadRecord, PartRecord, VanRecord, VertexRecord, part_word};
use near_vans::near_vans;
use part_keys::PartsWaiting;
use part_words::{MOST_ROWS, row_count};
use places::counts_in;
use row_lists::{RowLists, active_rows};
pub use search::Search;
use van_offers::{van_word, vertex_word};

mod search;

// As many vertices as a small map has at most.
const FEW_VERTICES: u32 = 1024;

// When a search around x comes first is for speed alone: nothing is promised of the two functions below, and another rule owes no more than to keep
// within bounds.

// For so few vans a search around x is tried.
const FEW_ASKED: usize = 2;

// Where `active` of `size` vertices are active, k active vertices are among some 8.
fn among_few(k: usize, size: usize, active: usize) -> bool
    requires { (k ≤ 32) × (size ≤ 128) × (active ≤ 128) }
{
    k * size <= 8 * active
}

// A search around x is likely to be short, if vans stand everywhere as in the leaf of x.
fn close_by(mem: &[u32], x: u32, k: usize) -> bool
    requires { k ≤ 32 }
{
    if FEW_ASKED < k {
        return false;
    }
    let leaf = vertex_word(mem, counts_in(mem), x, VertexRecord::LEAF);
    let size = row_count(mem, leaf);
    let active = active_rows(mem, part_word(mem, leaf, PartRecord::ROWS), size);
    among_few(k, size, active)
}

// The first k of all free vans that can reach x, in order of distance and then van number. k is a number with its limits in a clause, as the calls have it.
pub fn nearest_vans(mem: &[u32], x: u32, k: usize) -> BestList
    requires { (1 ≤ k) × (k ≤ 32) }
    ensures { (length result.offers ≤ k) × ((m : Map) (fleet : State) → Genuine m fleet mem.now → x < m.vertices → list_in mem.now result ≡ nearest m fleet x k) }
{
    if close_by(mem, x, k) {
        if let Some(best) = near_vans(mem, x, k) {
            return best;
        }
    }
    over_parts(mem, x, k)
}

// The same, by a search over the parts: with room for the distances of the map's vertices.
fn over_parts(mem: &[u32], x: u32, k: usize) -> BestList
    requires { (1 ≤ k) × (k ≤ 32) }
    ensures { (result.k ≡ k) × ((m : Map) (fleet : State) → Genuine m fleet mem.now → x < m.vertices → list_in mem.now result ≡ nearest m fleet x k) }
{
    if word(mem, HeadRecord::VERTICES) <= FEW_VERTICES {
        search_with(mem, x, k, &mut [FAR; 1024])
    } else {
        search_with(mem, x, k, &mut [FAR; 4096])
    }
}

// The search with room for distances, none of which is known yet.
fn search_with(mem: &[u32], x: u32, k: usize, dx: &mut [u32]) -> BestList
    requires { (1 ≤ k) × (k ≤ 32) × ((v : ℕ) → v < length dx.old → word dx.old v ≡ FAR) }
    ensures { (result.k ≡ k) × ((m : Map) (fleet : State) → Genuine m fleet mem.now → m.vertices ≤ length dx.old → x < m.vertices → list_in mem.now result ≡ nearest m fleet x k) }
{
    let mut search = Search {
        waiting: PartsWaiting {
            keys: [FAR; PartsWaiting::MOST],
            // Both filled with one word: the compiler then fills them in place, and copies none.
            waits: [FAR; PartsWaiting::MOST],
            n: 0,
        },
        lists: RowLists {
            places: [0; MOST_ROWS],
            near: [0; MOST_ROWS],
            known: 0,
            asked: [0; MOST_ROWS],
            count: 0,
        },
        best: BestList::new(k),
        part: 0,
        out: FAR,
    };
    search.search_at(mem, x, dx);
    search.best
}

// The list is written over the first words of the answer: van, distance and stamp of each.
pub fn write_list(mem: &[u32], best: BestList, answer: &mut [u32])
    requires { 3 * length best.offers ≤ length answer.old }
    ensures { answer.new ≡ list_written (list_in mem.now best) answer.old }
{
    let counts = counts_in(mem);
    for (i, offer) in best.offers().iter().enumerate() {
        answer[3 * i] = offer.van;
        answer[3 * i + 1] = offer.far;
        answer[3 * i + 2] = van_word(mem, counts, offer.van, VanRecord::STAMP);
    }
}
