// The records that the desk program reads: the map's four, an opening record, and calls.
ghost use Rattle.std.specs.Prelude.{◌≡◌, ◌<◌, ◌≤◌, length};
ghost use Rattle.maps.specs.Bytes.{field};
ghost use Rattle.desk_lines.specs.Read.{take_records, place_of, add_of, move_of, remove_of, claim_of, release_of, question_of, call_of, record_size, turn_of, opening_of};

use fleet::Change;
use map_bytes::{number2, number4};

// Bytes that the buffer for the map holds.
pub const MAP_ROOM: usize = 65536;

// Bytes of an opening record.
pub const OPENING_BYTES: usize = 10;

// Bytes of the longest call's record.
pub const LONGEST_CALL: usize = 16;

#[derive(Clone, Copy)]
pub enum Call {
    Changes(Change),
    Asks { vertex: u32, k: u32 },
}

// The record is cut, or none that may come here.
#[derive(Clone, Copy, Debug, PartialEq, Eq)]
pub struct BadRecord;

// Where a record puts a van.
#[derive(Clone, Copy)]
pub struct Place {
    van: u32,
    from: u32,
    to: u32,
    offset: u32,
}

// The first four records, taken by their length fields: the map is the bytes before this place, or all bytes where they end sooner. None where the fields ask for
// more than the room.
pub fn take_map(bytes: &[u8]) -> Option<usize>
    ensures { result ≡ take_records 4 0 bytes.now }
{
    let mut at: usize = 0;
    for _ in 0..4u32 {
        if bytes.len() < at + 4 {
            return Some(at);
        }
        at += 4 + number4(bytes, at) as usize;
        if MAP_ROOM < at {
            return None;
        }
    }
    Some(at)
}

#[tactic(auto, using(crate::proofs::Sized::field_one))]
fn number1(bytes: &[u8], at: usize) -> u32
    ensures { result ≡ field bytes.now at 1 }
{
    bytes.get(at).map_or(0, |b| u32::from(*b))
}

#[tactic(auto, unfolding(crate::specs::Read::place_of))]
fn place_of(body: &[u8]) -> Result<Place, BadRecord>
    ensures { result ≡ place_of body.now }
{
    if body.len() != 10 {
        return Err(BadRecord);
    }
    Ok(Place {
        van: number2(body, 0),
        from: number2(body, 2),
        to: number2(body, 4),
        offset: number4(body, 6),
    })
}

#[tactic(auto, unfolding(crate::specs::Read::add_of))]
fn add_of(body: &[u8]) -> Result<Call, BadRecord>
    ensures { result ≡ add_of body.now }
{
    let Place {
        van,
        from,
        to,
        offset,
    } = place_of(body)?;
    Ok(Call::Changes(Change::Add {
        van,
        from,
        to,
        offset,
    }))
}

#[tactic(auto, unfolding(crate::specs::Read::move_of))]
fn move_of(body: &[u8]) -> Result<Call, BadRecord>
    ensures { result ≡ move_of body.now }
{
    let Place {
        van,
        from,
        to,
        offset,
    } = place_of(body)?;
    Ok(Call::Changes(Change::Move {
        van,
        from,
        to,
        offset,
    }))
}

#[tactic(auto, unfolding(crate::specs::Read::remove_of))]
fn remove_of(body: &[u8]) -> Result<Call, BadRecord>
    ensures { result ≡ remove_of body.now }
{
    if body.len() != 2 {
        return Err(BadRecord);
    }
    Ok(Call::Changes(Change::Remove {
        van: number2(body, 0),
    }))
}

#[tactic(auto, unfolding(crate::specs::Read::claim_of))]
fn claim_of(body: &[u8]) -> Result<Call, BadRecord>
    ensures { result ≡ claim_of body.now }
{
    if body.len() != 7 {
        return Err(BadRecord);
    }
    Ok(Call::Changes(Change::Claim {
        van: number2(body, 0),
        stamp: number4(body, 2),
        desk: number1(body, 6),
    }))
}

#[tactic(auto, unfolding(crate::specs::Read::release_of))]
fn release_of(body: &[u8]) -> Result<Call, BadRecord>
    ensures { result ≡ release_of body.now }
{
    if body.len() != 3 {
        return Err(BadRecord);
    }
    Ok(Call::Changes(Change::Release {
        van: number2(body, 0),
        desk: number1(body, 2),
    }))
}

#[tactic(auto, unfolding(crate::specs::Read::question_of))]
fn question_of(body: &[u8]) -> Result<Call, BadRecord>
    ensures { result ≡ question_of body.now }
{
    if body.len() != 4 {
        return Err(BadRecord);
    }
    Ok(Call::Asks {
        vertex: number2(body, 0),
        k: number2(body, 2),
    })
}

// Kinds 16 to 21 are calls and every other kind is bad.
fn call_of(kind: u32, body: &[u8]) -> Result<Call, BadRecord>
    ensures { result ≡ call_of kind body.now }
{
    match kind {
        0..=15 => Err(BadRecord),
        16 => add_of(body),
        17 => move_of(body),
        18 => remove_of(body),
        19 => claim_of(body),
        20 => release_of(body),
        21 => question_of(body),
        22..=4294967295 => Err(BadRecord),
    }
}

// The next record where a call is to come: the call and how many bytes its record takes; None where there are no bytes left.
pub fn next_call(bytes: &[u8]) -> Result<Option<(Call, usize)>, BadRecord>
    ensures { result ≡ turn_of bytes.now }
{
    if bytes.is_empty() {
        return Ok(None);
    }
    let size = record_size(bytes)?;
    let call = call_of(number2(bytes, 4), &bytes[6..size])?;
    Ok(Some((call, size)))
}

// How many bytes the first record takes, unless it is cut, or too short for a kind.
fn record_size(bytes: &[u8]) -> Result<usize, BadRecord>
    ensures { result ≡ record_size bytes.now }
{
    let len = number4(bytes, 0) as usize;
    if len < 2 || bytes.len() < 4 + len {
        return Err(BadRecord);
    }
    Ok(4 + len)
}

// An opening record has kind 5 and length 6: the start number.
pub fn opening_of(bytes: &[u8]) -> Result<u32, BadRecord>
    ensures { result ≡ opening_of bytes.now }
{
    let size = record_size(bytes)?;
    if size != OPENING_BYTES || number2(bytes, 4) != 5 {
        return Err(BadRecord);
    }
    Ok(number4(bytes, 6))
}
