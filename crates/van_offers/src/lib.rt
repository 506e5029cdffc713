// The free vans that head for a vertex, and those that head for the vertices of some rows, offered to the list of the best.
// A memory and its counts are no struct: what reads is lent `&[u32]` and what changes `&mut [u32]`, and a struct holds only one of these.
#![tactic(auto)]

ghost use Rattle.std.specs.Prelude.{◌≡◌, ◌+◌, ◌<◌};
ghost use Rattle.words.specs.Limits.{vans as mostVans};
ghost use Rattle.words.specs.Lists.{word};
ghost use Rattle.layout.specs.Layout.{words_in_vertex, words_in_van};
ghost use Rattle.places.specs.Place.{vertex_address, van_address};
ghost use Rattle.best_list.specs.Best.{entries, offered_all};
ghost use Rattle.van_offers.specs.Offers.{stamp_in, van_offers, row_offers};

use best_list::{BestList, Offer};
use cells::word;
use counts::Counts;
use far_sums::{FAR, far_sum};
use layout::{RowRecord, VanRecord, VertexRecord, record_word};
use places::{vans_from, vertices_from};

// Word w of a van's record.
pub fn van_word(mem: &[u32], counts: Counts, van: u32, w: usize) -> u32
    requires { w < words_in_van }
    ensures { result ≡ word mem.now (van_address counts van + w) }
{
    record_word::<VanRecord>(mem, vans_from(counts), van, w)
}

// Word w of a vertex's record.
pub fn vertex_word(mem: &[u32], counts: Counts, vertex: u32, w: usize) -> u32
    requires { w < words_in_vertex }
    ensures { result ≡ word mem.now (vertex_address counts vertex + w) }
{
    record_word::<VertexRecord>(mem, vertices_from(counts), vertex, w)
}

// The list of vans that starts at a link, each at its offset beyond `near`.
pub fn offer_vans(mem: &[u32], counts: Counts, first: u32, near: u32, list: &mut BestList)
    ensures k { list.new.k ≡ list.old.k }
    ensures list { entries (stamp_in mem.now counts) list.new ≡ offered_all list.old.k (entries (stamp_in mem.now counts) list.old) (van_offers mem.now counts near mostVans first) }
{
    if list.limit() < near {
        return;
    }
    let mut link = first;
    for _ in 0..VanRecord::VANS {
        let Some(van) = link.checked_sub(1) else {
            return;
        };
        let far = far_sum(near, van_word(mem, counts, van, VanRecord::OFFSET));
        let next = van_word(mem, counts, van, VanRecord::NEXT);
        list.offer(Offer { far, van });
        link = next;
    }
}

// The vans of the vertices of some rows, of which `rows` has the numbers; `dx` has the vertices' distances.
pub fn offer_rows(
    mem: &[u32],
    counts: Counts,
    first: u32,
    rows: &[u32],
    dx: &[u32],
    list: &mut BestList,
)
    ensures k { list.new.k ≡ list.old.k }
    ensures list { entries (stamp_in mem.now counts) list.new ≡ offered_all list.old.k (entries (stamp_in mem.now counts) list.old) (row_offers mem.now counts first dx.now rows.now) }
{
    for i in rows {
        let row = first as usize + RowRecord::WORDS * *i as usize;
        let v = word(mem, row + RowRecord::OWN) % RowRecord::CHILD;
        let near = word(dx, v as usize);
        if near < FAR {
            let link = vertex_word(mem, counts, v, VertexRecord::VANS);
            offer_vans(mem, counts, link, near, list);
        }
    }
}
