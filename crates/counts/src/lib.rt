// The counts of a map, in record 1 and in the head of an opened memory, and their limits.
#![tactic(auto)]

ghost use Rattle.std.specs.Prelude.{◌≡◌};
ghost use Rattle.maps.specs.Rules.{counts_fit};

// Contracts name the three numbers: the definitions take them one by one, or as a record of their own (`maps/Bytes: Counts`), so one model would not serve.
#[derive(Clone, Copy)]
pub struct Counts {
    pub vertices: u32,
    pub roads: u32,
    pub parts: u32,
}

impl Counts {
    pub const MOST_VERTICES: u32 = 4096;

    pub const MOST_ROADS: u32 = 16384;

    pub const MOST_PARTS: u32 = 512;

    // Each count is within its limits.
    pub fn fit(self) -> bool
        ensures { result ≡ counts_fit self.vertices self.roads self.parts }
    {
        (1..=Counts::MOST_VERTICES).contains(&self.vertices)
            && self.roads <= Counts::MOST_ROADS
            && (1..=Counts::MOST_PARTS).contains(&self.parts)
    }
}
