// The section of the rows, all of them empty, in one pass over the vertices: each has a row in its leaf, and from there upward in every part
// that it is a border of. So each part's rows come in rising order, and the row in the child is written just before the row in its parent.
#![tactic(auto)]

ghost use Rattle.std.specs.Prelude.{◌≡◌, ℕ, suc, ◌+◌, ◌*◌, ◌<◌, ◌≤◌, true, List};
ghost use Rattle.words.specs.Limits.{most_vertices, most_parts};
ghost use Rattle.layout.specs.Layout.{child_in_row};
ghost use Rattle.roads.specs.Map.{Map};
ghost use Rattle.opening_rows.specs.Rows.{RowWritten, Standing, RowsReady, RowsStand, FirstRows};

use cells::{put, word};
use counts::Counts;
use layout::{PartRecord, RowRecord, VertexRecord, part_word};
use records::put_words;
use rows::Row;

// The word of a row that has its own vertex and the part further down; `table_words` reads it. Two numbers written in one place: a struct with a conversion either way would be no plainer.
fn own(v: u32, child: u32) -> u32
    ensures { v < child_in_row → child < child_in_row → result ≡ v + child_in_row * child }
{
    v.wrapping_add(child.wrapping_mul(RowRecord::CHILD))
}

// An empty row of v, at the next place of the part; the address is given back. Memory and places are lent apart, here and in `climb`: a struct of two borrows would be no plainer,
// and of a `Vertex` only the number stays the same on the way up.
fn write_row(mem: &mut [u32], cursors: &mut [u32], part: u32, v: u32, child: u32, below: u32) -> u32
    ensures { RowWritten mem.old cursors.old part v child below result mem.new cursors.new }
{
    let place = part as usize;
    let at = word(cursors, place);
    put_words(
        mem,
        at as usize,
        [Row::NO_VERTEX, Row::FAR, own(v, child), below],
    );
    put(cursors, place, at.wrapping_add(RowRecord::WORDS as u32));
    at
}

// A vertex with its leaf and its lift; `itself` is the address of what it shows of itself.
#[derive(Clone, Copy)]
struct Vertex {
    number: u32,
    leaf: u32,
    lift: u32,
    itself: u32,
}

// The rows of a vertex, from its leaf upward.
fn climb(parents: &[u32], vertex: Vertex, cursors: &mut [u32], mem: &mut [u32])
    ensures { (m : Map) (start : List ℕ) → Standing m parents.now vertex → RowsStand m vertex.number (λ q. true) start cursors.old mem.old → RowsStand m (suc vertex.number) (λ q. true) start cursors.new mem.new }
{
    let mut part = vertex.leaf;
    let mut child = 0;
    let mut below = vertex.itself;
    for _ in 0..Counts::MOST_PARTS {
        let at = write_row(mem, cursors, part, vertex.number, child, below);
        if part <= vertex.lift {
            return;
        }
        child = part;
        below = at;
        part = word(parents, part as usize);
    }
}

// The address of the first row of each part, from the parts' records.
pub fn first_rows(mem: &[u32], parts: u32, cursors: &mut [u32])
    requires { parts ≤ most_parts }
    ensures { FirstRows mem.now parts cursors.old cursors.new }
{
    for p in 0..parts {
        put(cursors, p as usize, part_word(mem, p, PartRecord::ROWS));
    }
}

// The rows of a map whose vertices' section starts at `base`; `cursors` has the address of the first row of each part.
pub fn write_rows(
    parents: &[u32],
    leaves: &[u32],
    lifts: &[u32],
    vertices: u32,
    base: u32,
    cursors: &mut [u32],
    mem: &mut [u32],
)
    requires { (vertices ≤ most_vertices) × (base ≤ 65536) }
    ensures { (m : Map) → RowsReady m parents.now leaves.now lifts.now vertices base cursors.old mem.old → RowsStand m vertices (λ q. true) mem.old cursors.new mem.new }
{
    for v in 0..vertices {
        let vertex = Vertex {
            number: v,
            leaf: word(leaves, v as usize),
            lift: word(lifts, v as usize),
            itself: base + (VertexRecord::WORDS * v as usize + VertexRecord::ITSELF) as u32,
        };
        climb(parents, vertex, cursors, mem);
    }
}
