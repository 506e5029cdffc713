// Keys of parts, and the parts that wait: a row whose vertex has a distance gives the child that it lies in a key, and a child that had none joins those that wait.
#![tactic(auto)]

ghost use Rattle.std.specs.Prelude.{◌≡◌, cond, ◌&&◌, List, ℕ, ◌+◌, ◌*◌, ◌≤◌, ◌<◌, length, set, leb, ltb};
ghost use Rattle.layout.specs.Layout.{words_in_row};
ghost use Rattle.words.specs.Limits.{FAR};
ghost use Rattle.words.specs.Lists.{word};
ghost use Rattle.cells.specs.Lowered.{lowered};
ghost use Rattle.listing.specs.Lists.{Among};
ghost use Rattle.row_lists.specs.Rows.{Nears};
ghost use Rattle.part_keys.specs.Keys.{is_new, far_count};
ghost use Rattle.part_keys.specs.Spread.{Spreads};

use cells::{more, put, word};
use far_sums::{FAR, far_sum};
use layout::RowRecord;
use part_words::PartRows;
use row_lists::{RowLists, rows_of};
pub use waiting::{PartsWaiting, WaitingPart};

mod waiting;

// A part whose key was `old` joins those that wait when it gets this one.
fn joins(old: u32, key: u32) -> bool
    ensures { result ≡ (ltb key FAR && leb FAR old) }
{
    key < FAR && FAR <= old
}

// A part's key made less, where `key` is less. A part that had none joins those that wait: the word behind the last of them is written in any case, and counts if
// the part is new. How many wait is kept beside the arrays from row to row, not stored for each.
pub fn lower_key(
    keys: &mut [u32; PartsWaiting::MOST],
    waits: &mut [u32],
    count: usize,
    part: u32,
    key: u32,
) -> usize
    requires { far_count keys.old + count ≤ 512 }
    ensures { (keys.new ≡ lowered keys.old part key) × (waits.new ≡ set waits.old count part) × (result ≡ cond (is_new keys.old part key) (count + 1) count) }
{
    let at = part as usize;
    let old = word(keys, at);
    put(keys, at, key.min(old));
    put(waits, count, part);
    more(count, joins(old, key))
}

// Each of the known rows gives the child that it lies in a key: no active vertex of the child is nearer by way of that row. The key is the distance that the row
// further down shows, and on from there.
pub fn spread_known(mem: &[u32], part: PartRows, lists: &RowLists, waiting: &mut PartsWaiting)
    requires { (part.first + words_in_row * part.size ≤ length mem.now) × ((t : ℕ) → t < lists.now.known → word lists.now.places t < part.size) }
    ensures { (far_count waiting.new.keys + waiting.new.n ≤ far_count waiting.old.keys + waiting.old.n) × ((dx : List ℕ) → Nears mem.now part.first dx lists.now.places lists.now.near lists.now.known → Spreads mem.now part.first dx (Among lists.now.places lists.now.known) waiting.old waiting.new) }
{
    let rows = rows_of(mem, part);
    let mut n = waiting.n;
    for (&place, &near) in lists.places().iter().zip(lists.near()) {
        let i = place as usize;
        let owner = rows[RowRecord::WORDS * i + RowRecord::OWN];
        let below = rows[RowRecord::WORDS * i + RowRecord::BELOW] as usize;
        let key = far_sum(word(mem, below + RowRecord::DISTANCE), near);
        n = lower_key(
            &mut waiting.keys,
            &mut waiting.waits,
            n,
            owner / RowRecord::CHILD,
            key,
        );
    }
    waiting.n = n;
}
