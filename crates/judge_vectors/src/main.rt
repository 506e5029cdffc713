// Judges every map of the stored packs and writes a line for each: `GROUP INDEX refused N`, or `GROUP INDEX sound` with the
// numbers of vertices, roads and parts and the need in words. The answers of a second program, written from the scope alone, are what
// must come out.
#![tactic(auto)]

use answers::Refusal;
use map_judge::{Sound, judge_map};
use packs::{read_file, split_item};
use std::io;
use std::rt::Files;

fn write_judgement(rt: &impl Print, judged: Result<Sound, Refusal>) -> io::Result<()> {
    match judged {
        Ok(Sound { counts, need }) => {
            println!(rt;
                " sound {} {} {} {need}",
                counts.vertices, counts.roads, counts.parts
            )
        }
        Err(refusal) => println!(rt; " refused {}", refusal.number()),
    }
}

fn judge_pack(rt: &impl Print, group: &str, pack: &[u8]) -> io::Result<()> {
    let mut rest = pack;
    let mut index: u64 = 0;
    while let Some((map, after)) = split_item(rest) {
        print!(rt; "{group} {index}")?;
        write_judgement(rt, judge_map(map))?;
        rest = after;
        index += 1;
    }
    if !rest.is_empty() {
        println!(rt; "{group} {index} cut")?;
    }
    Ok(())
}

fn judge_file(rt: &(impl Files + Print), group: &str, path: &str) -> io::Result<()> {
    let mut pack = [0u8; 262144];
    let n = read_file(rt, path.as_bytes(), &mut pack)?;
    judge_pack(rt, group, &pack[..n])
}

fn main(rt: HostRuntime) -> io::Result<()> {
    for (group, path) in [
        ("sound", "sound.pack"),
        ("cuts", "cuts.pack"),
        ("records", "records.pack"),
        ("counts", "counts.pack"),
        ("parts", "parts.pack"),
        ("roads", "roads.pack"),
        ("order", "order.pack"),
        ("limits", "limits.pack"),
        ("full", "full.pack"),
        ("bytes", "bytes.pack"),
        ("random", "random.pack"),
    ] {
        judge_file(&rt, group, path)?;
    }
    Ok(())
}
