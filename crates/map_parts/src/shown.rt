// The map that bytes show by the counts of record 1.
ghost use Rattle.std.specs.Prelude.{◌≡◌, ◌≤◌};
ghost use Rattle.words.specs.Limits.{most_vertices, most_roads, most_parts};
ghost use Rattle.words.specs.Lists.{word};
ghost use Rattle.maps.specs.Bytes.{roads_of, decode};
ghost use Rattle.map_parts.specs.Bodies.{the_counts};
ghost use Rattle.map_parts.specs.Part.{ShowsPartsOf};

use cells::word;
use counts::Counts;
use map_bytes::{copy_numbers, rest};

// A record's length and kind, before its body.
const BEFORE_BODY: usize = 6;

// Record 1, whose body has the counts.
const RECORD_1: usize = 12;

// The counts are within their limits. Contracts name each field: `ShowsPartsOf` and `Given` are also asked of lists that stand in no such struct.
#[derive(Drop)]
pub struct ShownMap<'a> {
    pub counts: Counts,
    // The parent of each part.
    pub parents: [u32; 512],
    // The leaf of each vertex.
    pub leaves: [u32; 4096],
    // The body of record 4.
    pub body: &'a [u8],
    pub ghost few_vertices: { counts.vertices ≤ most_vertices },
    pub ghost few_roads: { counts.roads ≤ most_roads },
    pub ghost few_parts: { counts.parts ≤ most_parts },
}

impl<'a> ShownMap<'a> {
    pub fn read(map: &'a [u8], counts: Counts) -> Self
        requires { (counts.vertices ≤ most_vertices) × (counts.roads ≤ most_roads) × (counts.parts ≤ most_parts) }
        ensures counts { result.counts ≡ counts }
        ensures parts { ShowsPartsOf (decode map.now (the_counts counts.vertices counts.roads counts.parts)) result.parents result.leaves result.counts.vertices result.counts.parts }
        ensures roads { (decode map.now (the_counts counts.vertices counts.roads counts.parts)).roads ≡ roads_of result.counts.roads result.body.now }
    {
        let mut shown = Self {
            counts,
            parents: [0; 512],
            leaves: [0; 4096],
            body: map,
        };
        shown.show(map);
        shown
    }

    // The map that these bytes show by its counts, in place of what it showed: an array that is lent is copied nowhere.
    pub fn show(&mut self, map: &'a [u8])
        ensures counts { self.new.counts ≡ self.old.counts }
        ensures parts { ShowsPartsOf (decode map.now (the_counts self.old.counts.vertices self.old.counts.roads self.old.counts.parts)) self.new.parents self.new.leaves self.new.counts.vertices self.new.counts.parts }
        ensures roads { (decode map.now (the_counts self.old.counts.vertices self.old.counts.roads self.old.counts.parts)).roads ≡ roads_of self.new.counts.roads self.new.body.now }
    {
        let parents_at = RECORD_1 + BEFORE_BODY;
        copy_numbers(rest(map, parents_at), self.counts.parts, &mut self.parents);
        let leaves_at = parents_at + 2 * (self.counts.parts as usize) + BEFORE_BODY;
        copy_numbers(rest(map, leaves_at), self.counts.vertices, &mut self.leaves);
        let roads_at = leaves_at + 2 * (self.counts.vertices as usize) + BEFORE_BODY;
        self.body = rest(map, roads_at);
    }

    pub fn parent(&self, p: u32) -> u32
        ensures { result ≡ word self.now.parents p }
    {
        word(&self.parents, p as usize)
    }

    pub fn leaf(&self, v: u32) -> u32
        ensures { result ≡ word self.now.leaves v }
    {
        word(&self.leaves, v as usize)
    }
}
