// All sections of the memory of an accepted map but the distance tables: each by its own function, in words that no other writes.
#![tactic(auto)]

ghost use Rattle.std.specs.Prelude.{◌≡◌, List, ℕ, ◌<◌, ◌≤◌, length};
ghost use Rattle.std.proofs.lemmas.List.Edits.{sets};
ghost use Rattle.words.specs.Limits.{most_vertices, most_roads, most_parts};
ghost use Rattle.layout.specs.Layout.{rows_in_part, part_word};
ghost use Rattle.roads.specs.Map.{Map, part_count};
ghost use Rattle.image.specs.Places.{first_row_of};
ghost use Rattle.image.specs.Image.{head_record};
ghost use Rattle.opening_parts.specs.Parts.{PartsStand};
ghost use Rattle.opening_sections.specs.Sections.{MapShown, NetStands, RowsDone, Sections};

use counts::Counts;
use layout::{HeadRecord, VanRecord};
use opening_parts::{rows_begin, write_parts};
use opening_roads::write_roads;
use opening_rows::{first_rows, write_rows};
use opening_vertices::write_vertices;
use places::{roads_from, van_at, vertices_from};
use records::{clear, put_words};

const ALL_VAN_WORDS: usize = VanRecord::WORDS * VanRecord::VANS as usize;

// Mark, words used, vertices, roads, parts, change count; the head's other words are 0.
fn write_head(mem: &mut [u32], used: u32, counts: Counts, start: u32)
    ensures { mem.new ≡ sets mem.old 0 (head_record used counts.vertices counts.roads counts.parts start) }
{
    let Counts {
        vertices,
        roads,
        parts,
    } = counts;
    let words = [HeadRecord::OPENED, used, vertices, roads, parts, start];
    put_words(mem, 0, words);
    clear(mem, words.len(), HeadRecord::WORDS - words.len());
}

fn write_part_section(parents: &[u32], sizes: &[u32], parts: u32, used: u32, mem: &mut [u32])
    requires { parts ≤ most_parts }
    ensures { (m : Map) (leaves body lifts : List ℕ) (vertices roads : ℕ) → MapShown m parents.now leaves body lifts sizes.now vertices roads parts used → length mem.old ≡ used → PartsStand m 0 mem.old mem.new }
{
    let tables_end = rows_begin(sizes, parts, used);
    let mut children: [u32; 512] = [0; 512];
    write_parts(parents, sizes, parts, tables_end, used, &mut children, mem);
}

// The roads and the vertices, which show the first road into each.
fn write_net(leaves: &[u32], body: &[u8], counts: Counts, mem: &mut [u32])
    requires { (counts.vertices ≤ most_vertices) × (counts.roads ≤ most_roads) × (counts.parts ≤ most_parts) }
    ensures { (m : Map) (parents lifts sizes : List ℕ) (used : ℕ) → MapShown m parents leaves.now body.now lifts sizes counts.vertices counts.roads counts.parts used → length mem.old ≡ used → NetStands m mem.old mem.new }
{
    let mut ins: [u32; 4096] = [0; 4096];
    let roads_at = roads_from(counts) as u32;
    write_roads(body, counts.roads, roads_at, &mut ins, mem);
    let mut places: [u32; 512] = [0; 512];
    let vertices_at = vertices_from(counts) as u32;
    write_vertices(
        leaves,
        body,
        counts.roads,
        counts.vertices,
        vertices_at,
        &ins,
        &mut places,
        mem,
    );
}

fn write_row_section(
    parents: &[u32],
    leaves: &[u32],
    lifts: &[u32],
    counts: Counts,
    mem: &mut [u32],
)
    requires { (counts.vertices ≤ most_vertices) × (counts.parts ≤ most_parts) }
    ensures { (m : Map) (body sizes : List ℕ) (used : ℕ) → used < 4294967296 → MapShown m parents.now leaves.now body lifts.now sizes counts.vertices counts.roads counts.parts used → length mem.old ≡ used → ((p : ℕ) → p < part_count m → part_word mem.old p rows_in_part ≡ first_row_of m p) → RowsDone m mem.old mem.new }
{
    let mut cursors: [u32; 512] = [0; 512];
    first_rows(mem, counts.parts, &mut cursors);
    let vertices_at = vertices_from(counts) as u32;
    write_rows(
        parents,
        leaves,
        lifts,
        counts.vertices,
        vertices_at,
        &mut cursors,
        mem,
    );
}

// The parents of the parts, the leaves and lifts of the vertices, the body of the roads' record and the sizes of the parts show the map; the memory has
// as many words as it needs.
pub fn write_sections(
    parents: &[u32],
    leaves: &[u32],
    body: &[u8],
    lifts: &[u32],
    sizes: &[u32],
    counts: Counts,
    used: u32,
    start: u32,
    mem: &mut [u32],
)
    requires { (counts.vertices ≤ most_vertices) × (counts.roads ≤ most_roads) × (counts.parts ≤ most_parts) }
    ensures { (m : Map) → MapShown m parents.now leaves.now body.now lifts.now sizes.now counts.vertices counts.roads counts.parts used → length mem.old ≡ used → Sections m start mem.new }
{
    write_head(mem, used, counts, start);
    write_part_section(parents, sizes, counts.parts, used, mem);
    write_net(leaves, body, counts, mem);
    clear(mem, van_at(counts, 0), ALL_VAN_WORDS);
    write_row_section(parents, leaves, lifts, counts, mem);
}
