// The calls that bench/ times: one that reads, and one that writes the same message again and again.
ghost use Rattle.std.specs.Prelude.{◌≡◌, length};
ghost use Rattle.model.specs.Messages.{decode, write_number, writable, written_to};
ghost use Rattle.messages.specs.Meaning.{fields_of, message_of};
ghost use Rattle.test_calls.specs.Counts.{both_counts};

use messages::{Message, read, write};

// Reads a message, and answers the counts of its two records, added up in 32 bits.
#[unsafe(no_mangle)]
pub extern "C" fn concur_bench_read(bytes: &[u8], n: u32) -> u32
    ensures { result ≡ both_counts (fields_of (decode n bytes.now)) }
{
    match read(bytes, n) {
        Ok(message) => message.newest.count.wrapping_add(message.stored.count),
        Err(_) => 0,
    }
}

// Reads a message and writes it again, so many times more, each time over what it wrote. One that the reader refuses is none, and is
// refused by the writer.
#[tactic(auto, unfolding(model::specs::Messages::decode))]
#[unsafe(no_mangle)]
pub extern "C" fn concur_bench_write(bytes: &[u8], n: u32, out: &mut [u8], more: u32) -> u32
    ensures value { result ≡ write_number n (message_of (fields_of (decode n bytes.now))) (length out.old) }
    ensures out_after { out.new
        ≡ written_to n (writable n (message_of (fields_of (decode n bytes.now))) (length out.old))
        out.old }
{
    let message = read(bytes, n).unwrap_or(Message::none());
    let written = write(message, n, out);
    for _ in 0..more {
        let _ = write(message, n, out);
    }
    match written {
        Ok(_) => 0,
        Err(refusal) => refusal.number(),
    }
}
