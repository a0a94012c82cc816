// What the writer refuses.
ghost use Rattle.std.specs.Prelude.{◌≡◌, ◌≤◌, IfOk};
ghost use Rattle.model.specs.Messages.{fit_given, written_length, write_number};
ghost use Rattle.rules.specs.Refusals.{answer};
ghost use Rattle.message_numbers.specs.Kinds.{kind_number};
ghost use Rattle.messages.specs.Meaning.{fields_in, message_of};

use crate::Message;
use message_bytes::steps::FRAME_LENGTH;
use message_numbers::MessageKind;
use message_numbers::steps::length_of;
use rules::{Refusal, is_fit, is_numbered};

// Are the fields of a message of this kind as number 15 wants them?
#[tactic(auto, using(crate::proofs::Laws::given), unfolding(model::specs::Messages::fit_given, model::specs::Messages::fit_message))]
fn fields_fit(kind: MessageKind, message: Message, n: u32) -> bool
    requires { kind_number kind ≡ message.kind }
    ensures { result ≡ fit_given n (message_of (fields_in message)) }
{
    match kind {
        MessageKind::Submit => is_fit(message.member, message.slot, message.operation, n),
        MessageKind::Reply => message.newest.fits(n) && message.stored.fits(n),
        MessageKind::Commit => message.newest.fits(n),
        MessageKind::Outcome => is_numbered(message.outcome, 2),
    }
}

// How many bytes a message of this kind is, or what refuses it to an output of `room` bytes, once `write` has judged n and the kind.
#[tactic(auto, using(crate::proofs::Laws::judging), unfolding(model::specs::Messages::write_number, model::specs::Messages::fit_given))]
pub fn check_fields(
    kind: MessageKind,
    message: Message,
    n: u32,
    room: usize,
) -> Result<usize, Refusal>
    requires { (1 ≤ n) × ((n ≤ 12) × (kind_number kind ≡ message.kind)) }
    ensures number_value { answer result ≡ write_number n (message_of (fields_in message)) room }
    ensures length_value { IfOk result (λ length. length ≡ written_length n (message_of (fields_in message))) }
{
    if !fields_fit(kind, message, n) {
        return Err(Refusal::Field);
    }
    let length = FRAME_LENGTH + length_of(kind, n);
    if room < length {
        return Err(Refusal::Room);
    }
    Ok(length)
}
