// What a call answers: its value where it is accepted, or which refusal it gets.
#![tactic(auto)]

ghost use Rattle.std.specs.Prelude.{◌≡◌, Err};
ghost use Rattle.fleet.specs.Change.{number_of, value_of};
ghost use Rattle.answers.specs.Answered.{answered};

// Ok with the new stamp, the length of the list, the start number, or 0 for a road.
pub type Reply = Result<u32, Refusal>;

#[derive(Clone, Copy, Debug, PartialEq, Eq)]
pub enum Refusal {
    // a map record has a wrong length or kind, is cut, or bytes follow
    MapRecord,
    // a count in record 1 is outside its limits
    MapCounts,
    // a rule for parts, leaves or the 128 borders is broken
    MapParts,
    // a rule for roads is broken
    MapRoads,
    // memory is below the need, or answer words below 3 × k
    TooFewWords,
    // memory has no opened head
    NotOpened,
    // van, desk, k or the asked vertex is outside its range
    OutOfRange,
    // no such van
    NoSuchVan,
    // van already present
    VanPresent,
    // neither (u, v) nor (v, u) is a road, also where u or v is no vertex
    NoRoad,
    // offset above the weight
    OffsetAboveWeight,
    // van is held
    VanHeld,
    // van is not held by this desk
    NotHeldByDesk,
    // stamp differs from the van's
    StampDiffers,
    // change count is 4,294,967,295
    CountFull,
    // (u, v) is no road but (v, u) is
    WrongWay,
}

impl Refusal {
    // The scope's number. By arms, since enum cases with one number would not compile, and that no two refusals have one is to be proved (edit two_refusals_of_one_number).
    pub fn number(self) -> u32
        ensures { result ≡ number_of (answered (Err self)) }
    {
        match self {
            Refusal::MapRecord => 1,
            Refusal::MapCounts => 2,
            Refusal::MapParts => 3,
            Refusal::MapRoads => 4,
            Refusal::TooFewWords => 5,
            Refusal::NotOpened => 6,
            Refusal::OutOfRange => 7,
            Refusal::NoSuchVan => 8,
            Refusal::VanPresent => 9,
            Refusal::NoRoad => 10,
            Refusal::OffsetAboveWeight => 11,
            Refusal::VanHeld => 12,
            Refusal::NotHeldByDesk => 13,
            Refusal::StampDiffers => 14,
            Refusal::CountFull => 15,
            Refusal::WrongWay => 20,
        }
    }
}

// The scope's number: 0 for an accepted call, or the refusal's.
pub fn number(reply: Reply) -> u32
    ensures { result ≡ number_of (answered reply) }
{
    match reply {
        Ok(_) => 0,
        Err(refusal) => refusal.number(),
    }
}

// The stamp, length or start number of an accepted call; 0 for a road, and of a refused call.
pub fn value(reply: Reply) -> u32
    ensures { result ≡ value_of (answered reply) }
{
    reply.unwrap_or(0)
}
