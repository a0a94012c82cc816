// Why a call is refused: document 01's numbers by the place of the check, and those that document 02's requests add.
ghost use Rattle.std.specs.Prelude.{◌≡◌};
ghost use Rattle.rules.specs.Refusals.{answer, number};

#[derive(Clone, Copy, Debug, PartialEq, Eq)]
pub enum Refusal {
    // A board, or a half's, of a size that its kind does not have.
    Size = 1,
    // What is lent has another length than is asked for.
    Length = 2,
    // A word of a table or of a block that no run leaves there.
    Word = 3,
    Member = 4,
    Slot = 5,
    Operation = 6,
    // A write to another's slot.
    Barred = 7,
    // The member's operation has not ended, or the member has crashed.
    Busy = 8,
    // The member's operations on the slot are used up.
    Spent = 9,
    // No such message is due to or from the member.
    NotDue = 10,
    // The member has crashed before, or has halted.
    Down = 11,
    // A message too short, or of another length than it says.
    Frame = 12,
    Version = 13,
    // A message's kind.
    Kind = 14,
    // A field of a message.
    Field = 15,
    // An output shorter than the message.
    Room = 16,
    // A line of a script, of another form.
    Line = 17,
    // Nobody overtook the operation, or there is none.
    NotOvertaken = 31,
    // A log with too many rows.
    Rows = 34,
    // A script with too many lines.
    Lines = 35,
}

impl Refusal {
    // Its number, as C and what is printed have it.
    pub fn number(self) -> u32
        ensures { result ≡ number self }
    {
        self as u32
    }
}

// What a call answers by number: 0 where it was done.
pub fn answered(outcome: Result<(), Refusal>) -> u32
    ensures { result ≡ answer outcome }
{
    match outcome {
        Ok(()) => 0,
        Err(refusal) => refusal.number(),
    }
}
