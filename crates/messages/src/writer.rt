// The writer's step by the kind.
ghost use Rattle.std.specs.Prelude.{◌≡◌, [], ◌∷◌, ◌+◌, ◌/◌, ◌%◌, ◌≤◌, ◌<◌, length, IfOk};
ghost use Rattle.model.specs.Messages.{reply, commit, frame_length, record_length, submit_length, outcome_length, record_at};
ghost use Rattle.model.specs.Messages.{number_bytes, encode};
ghost use Rattle.records.specs.Meaning.{record_in};
ghost use Rattle.message_bytes.specs.Needs.{InBytes};
ghost use Rattle.message_numbers.specs.Kinds.{kind_number};
ghost use Rattle.rules.specs.Refusals.{answer};
ghost use Rattle.messages.specs.Meaning.{Fronted, fields_in, number_written, length_written, output_after};

use crate::Message;
use crate::numbers::check_fields;
use message_bytes::steps::{FIELDS_AT, RECORD_AT, second_at, write_number, write_record};
use message_numbers::MessageKind;
use message_numbers::steps::{OUTCOME_LENGTH, SUBMIT_LENGTH, length_of};
use records::Record;
use rules::Refusal;

// The first five bytes: length, version, kind, and what stands first in the kind's fields.
fn write_heading(t: &mut [u8], size: usize, kind: u8, fifth: u8)
    requires { (5 ≤ length t.old) × (size < 65536) }
    ensures { Fronted (size / 256 ∷ size % 256 ∷ 1 ∷ kind ∷ fifth ∷ []) t.old t.new }
{
    t[0] = (size / 256) as u8;
    t[1] = (size % 256) as u8;
    t[2] = 1;
    t[3] = kind;
    t[4] = fifth;
}

fn write_submit(t: &mut [u8], member: u32, slot: u32, operation: u32, count: u32)
    requires { (frame_length + submit_length ≤ length t.old) × ((member < 256) × ((slot < 256) × (operation < 256))) }
    ensures { Fronted (0 ∷ 9 ∷ 1 ∷ 1 ∷ member ∷ slot ∷ operation ∷ number_bytes count) t.old t.new }
{
    write_heading(t, SUBMIT_LENGTH, MessageKind::Submit as u8, member as u8);
    t[FIELDS_AT + 1] = slot as u8;
    t[FIELDS_AT + 2] = operation as u8;
    write_number(t, FIELDS_AT + 3, count);
}

fn write_commit(t: &mut [u8], n: u32, r: Record)
    requires { (1 ≤ n) × ((n ≤ 12) × ((record_at + record_length n ≤ length t.old) × InBytes r)) }
    ensures { Fronted (encode n (commit (record_in r))) t.old t.new }
{
    let kind = MessageKind::Commit;
    write_heading(t, length_of(kind, n), kind as u8, n as u8);
    write_record(t, RECORD_AT, n as usize, r);
}

fn write_reply(t: &mut [u8], n: u32, newest: Record, stored: Record)
    requires { (1 ≤ n)
        × ((n ≤ 12) × ((record_at + record_length n + record_length n ≤ length t.old) × (InBytes newest × InBytes stored))) }
    ensures { Fronted (encode n (reply (record_in newest) (record_in stored))) t.old t.new }
{
    let size = n as usize;
    let kind = MessageKind::Reply;
    write_heading(t, length_of(kind, n), kind as u8, n as u8);
    write_record(t, RECORD_AT, size, newest);
    write_record(t, second_at(size), size, stored);
}

fn write_outcome(t: &mut [u8], outcome: u32)
    requires { (frame_length + outcome_length ≤ length t.old) × (outcome < 256) }
    ensures { Fronted (0 ∷ 3 ∷ 1 ∷ 4 ∷ outcome ∷ []) t.old t.new }
{
    write_heading(t, OUTCOME_LENGTH, MessageKind::Outcome as u8, outcome as u8);
}

// The message to the front of the output, and how many bytes it is, or what refuses it. Each arm judges its kind itself, for speed: behind
// one check of all four, the parts of every kind are fetched for each.
#[tactic(auto, using(crate::proofs::Laws::writing), unfolding(model::specs::Messages::writable, model::specs::Messages::written_to))]
pub fn write_message(
    kind: MessageKind,
    message: Message,
    n: u32,
    t: &mut [u8],
) -> Result<usize, Refusal>
    requires { (1 ≤ n) × ((n ≤ 12) × (kind_number kind ≡ message.kind)) }
    ensures number_value { answer result ≡ number_written n (fields_in message) t.old }
    ensures length_value { IfOk result (λ length. length ≡ length_written n (fields_in message) t.old) }
    ensures out_after { t.new ≡ output_after n (fields_in message) t.old }
{
    match kind {
        MessageKind::Submit => {
            let length = check_fields(kind, message, n, t.len())?;
            write_submit(
                t,
                message.member,
                message.slot,
                message.operation,
                message.count,
            );
            Ok(length)
        }
        MessageKind::Reply => {
            let length = check_fields(kind, message, n, t.len())?;
            write_reply(t, n, message.newest, message.stored);
            Ok(length)
        }
        MessageKind::Commit => {
            let length = check_fields(kind, message, n, t.len())?;
            write_commit(t, n, message.newest);
            Ok(length)
        }
        MessageKind::Outcome => {
            let length = check_fields(kind, message, n, t.len())?;
            write_outcome(t, message.outcome);
            Ok(length)
        }
    }
}
