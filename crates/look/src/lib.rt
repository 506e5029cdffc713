// Looking up a road on a lent memory: the head is tested first; the memory is only read.
#![tactic(auto)]

ghost use Rattle.answers.specs.Answered.{answered};
ghost use Rattle.calls.specs.Outcome.{LookedUp};
ghost use Rattle.look.specs.Looked.{LookedIn};

use answers::Reply;
use head::used_words;
use places::counts_in;
use road_lookup::look_up;

// A lookup in the words used.
fn road_in(words: &[u32], from: u32, to: u32) -> Reply
    ensures { LookedIn words.now from to result }
{
    let counts = counts_in(words);
    let _road = look_up(words, counts, from, to)?;
    Ok(0)
}

// Accepted where there is a road from `from` to `to`; else refused by whether the other way is one.
pub fn road(mem: &[u32], from: u32, to: u32) -> Reply
    ensures { LookedUp mem.now from to (answered result) }
{
    let used = used_words(mem)?;
    road_in(&mem[..used], from, to)
}
