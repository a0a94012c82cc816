// The reader and the writer, a message handed over as its fields in words, and a refusal as its number: this is a C interface.
ghost use Rattle.std.specs.Prelude.{◌≡◌, [], ◌∷◌, length};
ghost use Rattle.model.specs.Messages.{read_number, decode, write_number, writable, written_length, written_to};
ghost use Rattle.messages.specs.Meaning.{fields_of};
ghost use Rattle.test_calls.specs.Beside.{beside, beside_two};
ghost use Rattle.test_calls.specs.Handed.{fields_due, number_due, field_words, message_given};

use crate::words::{FIELDS_WORDS, load_fields, store_fields};
use messages::{Message, read, write};
use rules::Refusal;

// Reads a message: its fields, all zero where the reader refuses it.
#[tactic(auto, unfolding(crate::specs::Beside::beside, model::specs::Messages::decode))]
#[unsafe(no_mangle)]
pub extern "C" fn concur_call_read(bytes: &[u8], n: u32, fields: &mut [u32]) -> u32
    ensures value { result ≡ beside fields.old fields_due 2 (read_number n bytes.now) }
    ensures fields_after { fields.new
        ≡ beside fields.old fields_due fields.old
        (field_words (fields_of (decode n bytes.now))) }
{
    if fields.len() != FIELDS_WORDS {
        return Refusal::Length.number();
    }
    match read(bytes, n) {
        Ok(message) => {
            store_fields(fields, message);
            0
        }
        Err(refusal) => {
            store_fields(fields, Message::none());
            refusal.number()
        }
    }
}

// Writes the message that the fields say, and how many bytes it has; none where the writer refuses it.
#[tactic(auto, unfolding(crate::specs::Beside::beside, crate::specs::Beside::beside_two, crate::specs::Handed::message_given))]
#[unsafe(no_mangle)]
pub extern "C" fn concur_call_write(
    fields: &[u32],
    n: u32,
    out: &mut [u8],
    written: &mut [u32],
) -> u32
    ensures value { result
        ≡ beside_two fields.now fields_due written.old number_due 2
        (write_number n (message_given fields.now) (length out.old)) }
    ensures out_after { out.new
        ≡ beside_two fields.now fields_due written.old number_due out.old
        (written_to n (writable n (message_given fields.now) (length out.old)) out.old) }
    ensures written_after { written.new
        ≡ beside_two fields.now fields_due written.old number_due written.old
        (written_length n (writable n (message_given fields.now) (length out.old)) ∷ []) }
{
    if fields.len() != FIELDS_WORDS {
        return Refusal::Length.number();
    }
    if written.len() != 1 {
        return Refusal::Length.number();
    }
    let message = load_fields(fields);
    match write(message, n, out) {
        Ok(length) => {
            written[0] = length as u32;
            0
        }
        Err(refusal) => {
            written[0] = 0;
            refusal.number()
        }
    }
}
