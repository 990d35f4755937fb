// Why a call is refused.
ghost use Rattle.std.specs.Prelude.{◌≡◌};
ghost use Rattle.voxels.specs.Refused.{number_of};

// The nine refusals of document 01, with their numbers, in the order in which they are tested.
#[derive(Clone, Copy, PartialEq, Eq)]
pub enum Refusal {
    Lengths = 1,
    Seat = 2,
    SameSeat = 3,
    Value = 4,
    Damaged = 5,
    Unfilled = 6,
    EmptyBranch = 7,
    Occupied = 8,
    NoCells = 9,
}

impl Refusal {
    pub fn number(self) -> u32
        ensures { result ≡ number_of self }
    {
        self as u32
    }
}
