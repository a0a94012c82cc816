// The length of a message, by its kind and n.
ghost use Rattle.std.specs.Prelude.{◌≡◌, ◌≤◌};
ghost use Rattle.model.specs.Messages.{length_of};
ghost use Rattle.message_numbers.specs.Kinds.{kind_number};

use crate::MessageKind;
use message_bytes::steps::{HEADER_LENGTH, N_LENGTH, NUMBER_LENGTH, record_length};

// A submit: member, slot and type in a byte each, and the count. An outcome is one byte.
pub const SUBMIT_LENGTH: usize = HEADER_LENGTH + 3 + NUMBER_LENGTH;

pub const OUTCOME_LENGTH: usize = HEADER_LENGTH + 1;

// The length of what follows the length field.
#[tactic(auto, unfolding(model::specs::Messages::length_of, model::specs::Messages::record_length))]
pub fn length_of(kind: MessageKind, n: u32) -> usize
    requires { (1 ≤ n) × (n ≤ 12) }
    ensures { result ≡ length_of (kind_number kind) n }
{
    match kind {
        MessageKind::Submit => SUBMIT_LENGTH,
        MessageKind::Reply => HEADER_LENGTH + N_LENGTH + 2 * record_length(n as usize),
        MessageKind::Commit => HEADER_LENGTH + N_LENGTH + record_length(n as usize),
        MessageKind::Outcome => OUTCOME_LENGTH,
    }
}
