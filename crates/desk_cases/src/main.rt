// Runs the stored inputs of the desk program through its library. Before the lines of each stands a line with its group and number. In the group
// `rows` every row stands after each accepted change: vertex and distance, part by part. What a second program, written from the scope alone,
// prints for the same inputs must come out.
#![tactic(auto)]

ghost use Rattle.std.specs.Prelude.{◌≤◌, IfOk, IfSome, length};

use desk_steps::{begin, turn};
use layout::{HeadRecord, PartRecord};
use packs::{read_file, split_item};
use std::io;
use std::rt::Files;

// All rows: from the first row of the root to the end of the words used, four words each.
fn write_rows(rt: &impl Print, memory: &[u32; 16384], place: u32) -> io::Result<()> {
    print!(rt; "{place} rows")?;
    let first = memory[HeadRecord::WORDS + PartRecord::ROWS] as usize;
    let rows = memory.get(first..memory[HeadRecord::USED] as usize);
    for [vertex, distance, ..] in rows.unwrap_or(&[]).as_chunks::<4>().0 {
        print!(rt; " {vertex}:{distance}")?;
    }
    println!(rt; "")
}

// The first record, which is for `place`: how many bytes it takes, and None where the last line is written. An accepted change is counted in the head.
// An error is one of writing; the memory is as the call left it.
fn step(
    rt: &impl Print,
    memory: &mut [u32; 16384],
    input: &[u8],
    place: u32,
    rows: bool,
) -> io::Result<Option<usize>>
    requires { 1 ≤ place }
    ensures { IfOk result (λ taken. IfSome taken (λ n. n ≤ length input.now)) }
{
    let mut answer = [0u32; 96];
    let mut out = [0u8; 2048];
    let changes = memory[HeadRecord::COUNT];
    let next = turn(input, memory, &mut answer, &mut out, 0, place);
    rt.write_all(&out[..next.end])?;
    if rows && memory[HeadRecord::COUNT] != changes {
        write_rows(rt, memory, place)?;
    }
    Ok(next.taken)
}

// The calls, after an accepted opening.
fn calls(rt: &impl Print, memory: &mut [u32; 16384], input: &[u8], rows: bool) -> io::Result<()> {
    let mut rest = input;
    for place in 1..=1000001 {
        let Some(taken) = step(rt, memory, rest, place, rows)? else {
            return Ok(());
        };
        rest = &rest[taken..];
    }
    Ok(())
}

// `rows` is a flag: a closure would have to hold the printer and the memory that each step changes, for a line that one group has.
fn run_input(rt: &impl Print, input: &[u8], rows: bool) -> io::Result<()> {
    let mut memory = [0u32; 16384];
    let mut out = [0u8; 2048];
    let opened = begin(input, &mut memory, &mut out);
    rt.write_all(&out[..opened.end])?;
    let Some(taken) = opened.taken else {
        return Ok(());
    };
    if rows {
        write_rows(rt, &memory, 0)?;
    }
    calls(rt, &mut memory, &input[taken..], rows)
}

fn run_pack(rt: &impl Print, group: &str, pack: &[u8], rows: bool) -> io::Result<()> {
    let mut rest = pack;
    let mut index: u64 = 0;
    while let Some((input, after)) = split_item(rest) {
        println!(rt; "{group} {index}")?;
        run_input(rt, input, rows)?;
        rest = after;
        index += 1;
    }
    if !rest.is_empty() {
        println!(rt; "{group} {index}")?;
        println!(rt; "cut")?;
    }
    Ok(())
}

fn run_file(rt: &(impl Files + Print), group: &str, path: &str, rows: bool) -> io::Result<()> {
    let mut pack = [0u8; 262144];
    let n = read_file(rt, path.as_bytes(), &mut pack)?;
    run_pack(rt, group, &pack[..n], rows)
}

fn main(rt: HostRuntime) -> io::Result<()> {
    run_file(&rt, "stored", "stored.pack", false)?;
    run_file(&rt, "rows", "rows.pack", true)
}
