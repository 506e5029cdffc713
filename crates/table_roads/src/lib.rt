// The roads between the row vertices of a part: each lowers one word of the part's table, and marks its ends where it leads out of a child.
// That the memory and the marks keep their lengths is a clause of each function: `take_roads` promises it, and what it calls hands it on.
#![tactic(auto)]

ghost use Rattle.std.specs.Prelude.{◌≡◌, suc, ◌≤◌, ◌<◌, length};
ghost use Rattle.words.specs.Limits.{most_vertices, most_borders};
ghost use Rattle.roads.specs.Map.{Map, part_count, road_count};
ghost use Rattle.parts.specs.Size.{size_of};
ghost use Rattle.assembly.specs.Laid.{LaidForTables};
ghost use Rattle.assembly.specs.Steps.{Noted, HaltsMarked, RoadsOf, Roads};

use cells::{lower, put, word};
use layout::{PartRecord, RoadRecord, RowRecord, part_word, row_word};
use places::{counts_in, road_at};
use road_lookup::first_road;
use table_words::{LaidRows, part_of, vertex_of};

// The place of each row vertex of part p.
pub fn note_rows(mem: &[u32], p: u32, place: &mut [u32])
    ensures noted { (m : Map) → LaidForTables m mem.now → p < part_count m → most_vertices ≤ length place.old → Noted m p (size_of m p) place.new }
    ensures place_len_unchanged { length place.new ≡ length place.old }
{
    let rows = LaidRows::of(mem, p);
    for i in 0..rows.table.nodes {
        let v = vertex_of(row_word(mem, rows.first, i, RowRecord::OWN));
        put(place, v as usize, i);
    }
}

// Two rows, i and j, are marked as halts, unless one child holds the vertices of both: d and e are their children, 0 for none. Marks are words, since `take_roads` may be lent any: a row whose word is 1 is a halt.
fn mark(marks: &mut [u32], i: u32, j: u32, d: u32, e: u32)
    ensures halts_marked { HaltsMarked marks.old i j d e marks.new }
    ensures marks_len_unchanged { length marks.new ≡ length marks.old }
{
    if d == e && d != 0 {
        return;
    }
    put(marks, i as usize, 1);
    put(marks, j as usize, 1);
}

// Road r, where it leads from the vertex of row i of part p to that of another row. The noted place is tested. Memory, places and marks are three lists lent apart, here and below:
// a struct of three borrows would be no plainer, and docs name `take_roads`.
fn lower_by_road(mem: &mut [u32], place: &[u32], marks: &mut [u32], p: u32, i: u32, r: u32)
    ensures roads_of { (m : Map) → LaidForTables m mem.old → p < part_count m → i < size_of m p → r < road_count m → Noted m p (size_of m p) place.now → most_borders ≤ length marks.old → RoadsOf m p i r (suc r) mem.old mem.new marks.old marks.new }
    ensures mem_len_unchanged { length mem.new ≡ length mem.old }
    ensures marks_len_unchanged { length marks.new ≡ length marks.old }
{
    let road = road_at(counts_in(mem), r);
    let rows = LaidRows::of(mem, p);
    let from = word(mem, road);
    let to = word(mem, road + RoadRecord::TO);
    let weight = word(mem, road + RoadRecord::WEIGHT);
    let j = word(place, to as usize);
    let own = row_word(mem, rows.first, i, RowRecord::OWN);
    if from != vertex_of(own) {
        return;
    }
    if rows.table.nodes <= j {
        return;
    }
    let other = row_word(mem, rows.first, j, RowRecord::OWN);
    if to != vertex_of(other) {
        return;
    }
    mark(marks, i, j, part_of(own), part_of(other));
    lower(mem, rows.table.place(i, j), weight);
}

// All roads from the vertex of row i of part p.
fn lower_by_roads(mem: &mut [u32], place: &[u32], marks: &mut [u32], p: u32, i: u32)
    ensures roads_of { (m : Map) → LaidForTables m mem.old → p < part_count m → i < size_of m p → Noted m p (size_of m p) place.now → most_borders ≤ length marks.old → RoadsOf m p i 0 (road_count m) mem.old mem.new marks.old marks.new }
    ensures mem_len_unchanged { length mem.new ≡ length mem.old }
    ensures marks_len_unchanged { length marks.new ≡ length marks.old }
{
    let first = part_word(mem, p, PartRecord::ROWS);
    let v = vertex_of(row_word(mem, first, i, RowRecord::OWN));
    let counts = counts_in(mem);
    for r in first_road(mem, counts, v)..first_road(mem, counts, v + 1) {
        lower_by_road(mem, place, marks, p, i, r);
    }
}

// All roads between row vertices of part p.
pub fn take_roads(mem: &mut [u32], place: &[u32], marks: &mut [u32], p: u32)
    ensures roads { (m : Map) → LaidForTables m mem.old → p < part_count m → Noted m p (size_of m p) place.now → most_borders ≤ length marks.old → Roads m p (size_of m p) mem.old mem.new marks.old marks.new }
    ensures mem_len_unchanged { length mem.new ≡ length mem.old }
    ensures marks_len_unchanged { length marks.new ≡ length marks.old }
{
    for i in 0..part_word(mem, p, PartRecord::SIZE) {
        lower_by_roads(mem, place, marks, p, i);
    }
}
