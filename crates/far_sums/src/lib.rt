// Sums of distances: FAR, 4,294,967,295, is the top of the order, and a sum that would pass it is FAR. No Option: sums and the least of two need no case, and a memory's words say FAR.
#![tactic(auto)]

ghost use Rattle.std.specs.Prelude.{◌≡◌, ◌+◌, min};

pub const FAR: u32 = 4294967295;

pub fn far_sum(a: u32, b: u32) -> u32
    ensures { result ≡ min (a + b) 4294967295 }
{
    a.saturating_add(b)
}
