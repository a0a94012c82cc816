// The reader's steps, one for each kind, for bytes that no number refuses.
ghost use Rattle.std.specs.Prelude.{◌≡◌, ◌+◌, ◌≤◌, length};
ghost use Rattle.lists.specs.Functions.{from};
ghost use Rattle.lists.specs.Parts.{words};
ghost use Rattle.model.specs.Messages.{submit, reply, commit, outcome, frame_length, record_length, submit_length, outcome_length};
ghost use Rattle.model.specs.Messages.{fields_at, record_at, number_of, record_from};
ghost use Rattle.messages.specs.Meaning.{Holds};

use crate::Message;
use message_bytes::steps::{FIELDS_AT, RECORD_AT, read_number, read_record, second_at, wide};
use message_numbers::MessageKind;

#[tactic(auto, unfolding(crate::specs::Meaning::fields_of))]
pub fn read_submit(s: &[u8]) -> Message
    requires { frame_length + submit_length ≤ length s.now }
    ensures { let b = words s.now in
        Holds result (submit (b fields_at) (b (fields_at + 1)) (b (fields_at + 2)) (number_of (from b (fields_at + 3)))) }
{
    Message {
        kind: MessageKind::Submit as u32,
        member: wide(s[FIELDS_AT]),
        slot: wide(s[FIELDS_AT + 1]),
        operation: wide(s[FIELDS_AT + 2]),
        count: read_number(s, FIELDS_AT + 3),
        ..Message::none()
    }
}

// The two with records stand apart, for speed: in one body with the short ones, a message of any kind is copied once more, or set to zero.
#[tactic(auto, unfolding(crate::specs::Meaning::fields_of))]
#[inline(never)]
pub fn read_reply(s: &[u8], n: usize) -> Message
    requires { (n ≤ 12) × (record_at + record_length n + record_length n ≤ length s.now) }
    ensures { let b = words s.now in
        Holds result (reply (record_from n (from b record_at)) (record_from n (from b (record_at + record_length n)))) }
{
    Message {
        kind: MessageKind::Reply as u32,
        newest: read_record(s, RECORD_AT, n),
        stored: read_record(s, second_at(n), n),
        ..Message::none()
    }
}

#[tactic(auto, unfolding(crate::specs::Meaning::fields_of))]
#[inline(never)]
pub fn read_commit(s: &[u8], n: usize) -> Message
    requires { (n ≤ 12) × (record_at + record_length n ≤ length s.now) }
    ensures { Holds result (commit (record_from n (from (words s.now) record_at))) }
{
    let record = read_record(s, RECORD_AT, n);
    Message {
        kind: MessageKind::Commit as u32,
        newest: record,
        ..Message::none()
    }
}

#[tactic(auto, unfolding(crate::specs::Meaning::fields_of))]
pub fn read_outcome(s: &[u8]) -> Message
    requires { frame_length + outcome_length ≤ length s.now }
    ensures { Holds result (outcome (words s.now fields_at)) }
{
    Message {
        kind: MessageKind::Outcome as u32,
        outcome: wide(s[FIELDS_AT]),
        ..Message::none()
    }
}
