// The kinds of message, and their numbers.
ghost use Rattle.message_numbers.specs.Kinds.{Decodes};

use rules::Refusal;

// A kind's number is `kind as u8`.
#[derive(Clone, Copy, Debug, PartialEq, Eq)]
pub enum MessageKind {
    Submit = 1,
    Reply = 2,
    Commit = 3,
    Outcome = 4,
}

impl TryFrom<u32> for MessageKind {
    type Error = Refusal;

    ghost try_from_gives = { Decodes };

    #[tactic(auto, unfolding(lists::specs::Functions::inside))]
    fn try_from(number: u32) -> Result<Self, Refusal> {
        match number {
            1 => Ok(MessageKind::Submit),
            2 => Ok(MessageKind::Reply),
            3 => Ok(MessageKind::Commit),
            4 => Ok(MessageKind::Outcome),
            _ => Err(Refusal::Kind),
        }
    }
}
