// Opens stored maps in memories of chosen lengths, all words 7 before, and writes for each: the words lent, the number and the value of the reply, the first
// six words, chosen words, and a digest of all words lent. What a second program, written from the scope alone, makes of the same maps must come out.
#![tactic(auto)]

ghost use Rattle.std.specs.Prelude.{◌<◌, ◌≤◌};

use answers::{number, value};
use opening::open;
use packs::read_file;
use std::io;
use std::ops::Range;
use std::rt::Files;

// The words of the range that the memory has.
fn write_words(rt: &impl Print, words: &[u32], range: Range<usize>) -> io::Result<()> {
    print!(rt; "{} to {}:", range.start, range.end)?;
    for word in words.iter().take(range.end).skip(range.start) {
        print!(rt; " {word}")?;
    }
    println!(rt; "")
}

// One number for all words and their order.
fn digest(words: &[u32]) -> u64
    ensures { result < 4294967291 }
{
    let mut sum: u64 = 0;
    for word in words {
        sum = (sum * 31 + u64::from(*word)) % 4294967291;
    }
    sum
}

fn write_case(
    rt: &impl Print,
    name: &str,
    map: &[u8],
    start: u32,
    words: &mut [u32],
    range: Range<usize>,
) -> io::Result<()> {
    let reply = open(map, words, start);
    println!(rt; "{name} {} {} {}", words.len(), number(reply), value(reply))?;
    write_words(rt, words, 0..6)?;
    write_words(rt, words, range)?;
    println!(rt; "digest {}", digest(words))
}

// The map of the file opened in `lent` words.
fn open_case(
    rt: &(impl Files + Print),
    name: &str,
    path: &str,
    start: u32,
    lent: usize,
    range: Range<usize>,
) -> io::Result<()>
    requires { lent ≤ 32768 }
{
    let mut map = [0u8; 4096];
    let n = read_file(rt, path.as_bytes(), &mut map)?;
    let mut memory = [7u32; 32768];
    write_case(rt, name, &map[..n], start, &mut memory[..lent], range)
}

fn open_small(rt: &(impl Files + Print)) -> io::Result<()> {
    open_case(rt, "small", "small.map", 100, 8413, 8348..8413)?;
    open_case(rt, "small", "small.map", 100, 8412, 8348..8412)?;
    open_case(rt, "small", "small.map", 0, 8420, 64..88)?;
    open_case(rt, "small", "small.map", 4294967295, 8413, 88..128)
}

fn open_one(rt: &(impl Files + Print)) -> io::Result<()> {
    open_case(rt, "one", "one.map", 1, 8277, 64..80)?;
    open_case(rt, "one", "one.map", 1, 8277, 8272..8277)?;
    open_case(rt, "one", "one.map", 1, 63, 0..6)
}

fn open_apart(rt: &(impl Files + Print)) -> io::Result<()> {
    open_case(rt, "apart", "apart.map", 2, 8473, 8273..8473)?;
    open_case(rt, "apart", "apart.map", 2, 8472, 0..6)
}

fn open_limit(rt: &(impl Files + Print)) -> io::Result<()> {
    open_case(rt, "limit", "limit.map", 3, 29832, 64..72)?;
    open_case(rt, "limit", "limit.map", 3, 29832, 28808..28872)?;
    open_case(rt, "limit", "limit.map", 3, 29831, 0..6)
}

// More borders than a part may have get 3, also where the memory is below the need.
fn open_past(rt: &(impl Files + Print)) -> io::Result<()> {
    open_case(rt, "past", "past.map", 4, 30142, 0..6)?;
    open_case(rt, "past", "past.map", 4, 30141, 0..6)?;
    open_case(rt, "past", "past.map", 4, 64, 0..6)?;
    open_case(rt, "past", "past.map", 4, 0, 0..6)
}

fn main(rt: HostRuntime) -> io::Result<()> {
    open_small(&rt)?;
    open_one(&rt)?;
    open_apart(&rt)?;
    open_limit(&rt)?;
    open_past(&rt)
}
