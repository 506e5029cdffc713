// Little-endian numbers and records in any bytes. A byte past the end reads as 0, as in the definitions.
#![tactic(auto)]

ghost use Rattle.std.specs.Prelude.{◌≡◌, ◌<◌, ◌≤◌, length, drop};
ghost use Rattle.maps.specs.Bytes.{field, is_record, number_at};
ghost use Rattle.map_bytes.specs.Copied.{Copied};

// The bytes from `at` on.
pub fn rest(bytes: &[u8], at: usize) -> &[u8]
    ensures { result.now ≡ drop at bytes.now }
{
    &bytes[at.min(bytes.len())..]
}

// The number of 2 bytes at `at`. Beside `number4`: std's functions belong to two types, and each body is two lines.
pub fn number2(bytes: &[u8], at: usize) -> u32
    ensures { (result ≡ field bytes.now at 2) × (result < 65536) }
{
    match rest(bytes, at) {
        [] => 0,
        [low] => *low as u32,
        [low, high, ..] => u16::from_le_bytes([*low, *high]) as u32,
    }
}

// The number of 4 bytes at `at`.
pub fn number4(bytes: &[u8], at: usize) -> u32
    ensures { result ≡ field bytes.now at 4 }
{
    let rest = rest(bytes, at);
    number2(rest, 0) + 65536 * number2(rest, 2)
}

// The record at `at` has this kind and this length, and is not cut. The kind is a number, as in the definitions: records of a map and of the desk have kinds of their own.
#[tactic(auto, unfolding(maps::specs::Bytes::is_record))]
pub fn is_record(bytes: &[u8], at: u32, kind: u32, len: u32) -> bool
    ensures { result ≡ is_record bytes.now at kind len }
{
    let start = at as usize;
    start + 4 + len as usize <= bytes.len()
        && number4(bytes, start) == len
        && number2(bytes, start + 4) == kind
}

// Number i of a record's body.
#[tactic(auto, unfolding(maps::specs::Bytes::number_at))]
pub fn number_at(body: &[u8], i: u32) -> u32
    ensures { result ≡ number_at body.now i }
{
    number2(body, 2 * (i as usize))
}

// The first n numbers of a record's body, as words. By index: a body may be cut, and what it lacks reads as 0.
pub fn copy_numbers(body: &[u8], n: u32, words: &mut [u32])
    requires { n ≤ length words.old }
    ensures { Copied body.now n words.old words.new }
{
    for i in 0..n {
        words[i as usize] = number_at(body, i);
    }
}
