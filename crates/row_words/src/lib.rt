// A row of a part, as the two words that show it and as one number; and what stands one step further down from it.
#![tactic(auto)]

ghost use Rattle.std.specs.Prelude.{◌≡◌, ◌+◌, ◌*◌, ◌/◌, ◌%◌, ◌^◌, ◌≤◌, ◌<◌, length};
ghost use Rattle.layout.specs.Layout.{below_in_row};
ghost use Rattle.row_words.specs.Words.{row_in, shown, source_in, placed, unplaced};

use cells::{put, word};
use layout::RowRecord;
use rows::Row;

// A place has room for every vertex below the distance.
const PLACE: u64 = 4294967296;

// What the two words at an address show.
pub fn row_at(mem: &[u32], at: usize) -> Row
    requires { at < 18446744073709551615 }
    ensures { result ≡ row_in mem.now at }
{
    Row::showing(word(mem, at), word(mem, at + RowRecord::DISTANCE))
}

pub fn show(mem: &mut [u32], at: usize, row: Row)
    requires { at < 18446744073709551615 }
    ensures { mem.new ≡ shown mem.old at row }
{
    put(mem, at, row.vertex);
    put(mem, at + RowRecord::DISTANCE, row.distance);
}

// What stands one step further down from a row: a leaf's vertex itself, and for any other part the same vertex's row in the child.
pub fn source(mem: &[u32], row: usize) -> Row
    requires { row + below_in_row < length mem.now }
    ensures { result ≡ source_in mem.now row }
{
    row_at(mem, mem[row + RowRecord::BELOW] as usize)
}

// A row as one number: its vertex below UNIT, its distance above. Of two rows whose vertices are below UNIT the one that comes before has the lesser.
pub fn numbered<const UNIT: u64>(vertex: u32, distance: u32) -> u64
    requires { UNIT ≤ 2 ^ 32 }
    ensures { result ≡ distance * UNIT + vertex }
{
    u64::from(distance) * UNIT + u64::from(vertex)
}

// The row that a number stands for.
pub fn row_numbered<const UNIT: u64>(number: u64) -> Row
    requires { (0 < UNIT) × (UNIT ≤ 2 ^ 32) × (number / UNIT < 2 ^ 32) }
    ensures { result ≡ record { vertex = number % UNIT; distance = number / UNIT } }
{
    Row::showing((number % UNIT) as u32, (number / UNIT) as u32)
}

// The place of a row: as one number that has room for every vertex.
pub fn place(vertex: u32, distance: u32) -> u64
    ensures { (result ≡ placed vertex distance) × (result % 4294967296 ≡ vertex) × (result / 4294967296 ≡ distance) }
{
    numbered::<PLACE>(vertex, distance)
}

pub fn row_of(place: u64) -> Row
    ensures { result ≡ unplaced place }
{
    row_numbered::<PLACE>(place)
}
