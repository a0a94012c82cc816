// Why a member halts: which check of a reply failed, under document 01's numbers.
ghost use Rattle.std.specs.Prelude.{◌≡◌};
ghost use Rattle.checks.specs.Halts.{number};

#[derive(Clone, Copy, Debug, PartialEq, Eq)]
pub enum Halt {
    // a seal did not hold
    Seal = 21,
    // the slot's row: another member's known count exceeds the newest record's
    SlotRow = 22,
    // the newest record's count for the member is not its accepted one
    OwnCount = 23,
    // the stored record is not by the slot's owner
    Owner = 24,
    // the stored matrix is not below the newest, or they differ at the owner's count
    Stored = 25,
    // another row: known and newest are crossed
    OtherRow = 26,
    // another row: the newest record's count for the member is above its accepted one
    OtherCount = 27,
}

impl Halt {
    // Its number, as the member's table and the host's answers have it.
    pub fn number(self) -> u32
        ensures { result ≡ number self }
    {
        self as u32
    }
}
