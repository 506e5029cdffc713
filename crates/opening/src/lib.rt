// Opening: the map is judged, and where the memory has room, the whole memory of the map and an empty fleet is written.
#![tactic(auto)]

ghost use Rattle.calls.specs.Outcome.{Opened};
ghost use Rattle.answers.specs.Answered.{answered};

use answers::{Refusal, Reply};
use map_judge::judge_map;
use opening_map::write_map;
use tables::fill_tables;

// Opens the map in the memory, with the start number as its change count.
pub fn open(map: &[u8], memory: &mut [u32], start: u32) -> Reply
    ensures { Opened map.now memory.old start (answered result) memory.new }
{
    let found = judge_map(map)?;
    let need = found.need as usize;
    // Not `get_mut`: what is written through what it lends isn't known afterwards.
    if memory.len() < need {
        return Err(Refusal::TooFewWords);
    }
    let used = &mut memory[..need];
    write_map(map, found, start, used);
    fill_tables(used);
    Ok(start)
}
