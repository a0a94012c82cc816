// Messages as bytes: the reader, the writer, and the check that a C gateway calls.
#![tactic(auto)]

ghost use Rattle.std.specs.Prelude.{◌≡◌, IfOk};
ghost use Rattle.std.proofs.Math.Option.{none};
ghost use Rattle.model.specs.Messages.{read_number};
ghost use Rattle.rules.specs.Refusals.{answer};
ghost use Rattle.messages.specs.Meaning.{fields_in, fields_of, fields_read, number_written, length_written, output_after};

use crate::reader::{read_commit, read_outcome, read_reply, read_submit};
use crate::writer::write_message;
use message_numbers::{MessageKind, check_message};
use records::Record;
use rules::{MOST_MEMBERS, Refusal, is_numbered};

mod numbers;
mod reader;
mod writer;

// A message by value. Unused parts are zero; a commit's record stands in `newest`.
#[derive(Clone, Copy)]
pub struct Message {
    // 1 submit, 2 reply, 3 commit, 4 outcome; a number and no `MessageKind`, since the writer takes every number, and refuses the others.
    pub kind: u32,
    pub member: u32,
    pub slot: u32,
    pub operation: u32,
    pub count: u32,
    // 1 accepted, 2 aborted
    pub outcome: u32,
    pub newest: Record,
    pub stored: Record,
}

impl Message {
    // No message: every part zero.
    #[tactic(auto, unfolding(crate::specs::Meaning::fields_of))]
    pub fn none() -> Message
        ensures { fields_in result ≡ fields_of none }
    {
        Message {
            kind: 0,
            member: 0,
            slot: 0,
            operation: 0,
            count: 0,
            outcome: 0,
            newest: Record::zero(),
            stored: Record::zero(),
        }
    }
}

// The reader: the message in these bytes on a board of n.
#[tactic(auto, using(crate::proofs::Laws::reading), unfolding(model::specs::Messages::decode))]
pub fn read(bytes: &[u8], n: u32) -> Result<Message, Refusal>
    ensures number_value { answer result ≡ read_number n bytes.now }
    ensures fields_value { IfOk result (λ message. fields_in message ≡ fields_read n bytes.now) }
{
    let kind = check_message(bytes, n)?;
    // Each arm makes its own `Ok`, for speed: behind them the message would be copied once more into it.
    match kind {
        MessageKind::Submit => Ok(read_submit(bytes)),
        MessageKind::Reply => Ok(read_reply(bytes, n as usize)),
        MessageKind::Commit => Ok(read_commit(bytes, n as usize)),
        MessageKind::Outcome => Ok(read_outcome(bytes)),
    }
}

// The writer: the message's bytes to the front of the output, the others left as they were, and how many bytes they are; nothing where it
// is refused.
#[tactic(auto, using(crate::proofs::Laws::refusing), unfolding(model::specs::Messages::writable, model::specs::Messages::written_to))]
pub fn write(message: Message, n: u32, out: &mut [u8]) -> Result<usize, Refusal>
    ensures number_value { answer result ≡ number_written n (fields_in message) out.old }
    ensures length_value { IfOk result (λ length. length ≡ length_written n (fields_in message) out.old) }
    ensures out_after { out.new ≡ output_after n (fields_in message) out.old }
{
    if !is_numbered(n, MOST_MEMBERS) {
        return Err(Refusal::Size);
    }
    // A kind that is none counts as a field.
    let Ok(kind) = MessageKind::try_from(message.kind) else {
        return Err(Refusal::Field);
    };
    write_message(kind, message, n, out)
}

// 0 if the reader would take these bytes on a board of n, or the number that it would refuse them with. For C: include/concur.h.
pub fn concur_message_check(bytes: &[u8], n: u32) -> u32
    ensures { result ≡ read_number n bytes.now }
{
    match check_message(bytes, n) {
        Ok(_) => 0,
        Err(refusal) => refusal.number(),
    }
}
