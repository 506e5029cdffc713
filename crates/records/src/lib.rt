// Records of words, written at an address of a lent memory. Past the memory's end nothing changes.
#![tactic(auto)]

ghost use Rattle.std.specs.Prelude.{◌≡◌};
ghost use Rattle.std.proofs.lemmas.List.Edits.{sets};
ghost use Rattle.records.specs.Cleared.{cleared};

use cells::put;

// These words, from `at` on.
pub fn put_words<const N: usize>(mem: &mut [u32], at: usize, words: [u32; N])
    ensures { mem.new ≡ sets mem.old at words.entry }
{
    if at < mem.len() {
        for (i, word) in words.iter().enumerate() {
            put(mem, at + i, *word);
        }
    }
}

// n words 0 from `at` on.
pub fn clear(mem: &mut [u32], at: usize, n: usize)
    ensures { mem.new ≡ cleared mem.old at n }
{
    let start = at.min(mem.len());
    let count = n.min(mem.len() - start);
    mem[start..start + count].fill(0);
}
