// Records and messages in the words of a slice, all twelve rows of a record whatever n is.
ghost use Rattle.std.specs.Prelude.{◌≡◌, ◌+◌, ◌≤◌, ◌++◌, length, take};
ghost use Rattle.messages.specs.Meaning.{fields_in};
ghost use Rattle.records.specs.Meaning.{record_in};
ghost use Rattle.test_calls.specs.Handed.{record_due, record_from, both_due, both_words, fields_due, fields_from, field_words};

use messages::Message;
use records::Record;
use records::steps::{load_record, store_record};

// How many words a value has, a record, two records, and the fields of a message.
pub const VALUE_WORDS: usize = 8;

pub const RECORD_WORDS: usize = 156;

pub const BOTH_WORDS: usize = 312;

pub const FIELDS_WORDS: usize = 318;

// Where the two records of a message begin.
const NEWEST_AT: usize = 6;

const STORED_AT: usize = 162;

// The record in the words from `at` on.
#[tactic(auto, unfolding(crate::specs::Handed::record_from, model::specs::RecordWords::record_size))]
pub fn load_at(t: &[u32], at: usize) -> Record
    requires { at + record_due ≤ length t.now }
    ensures { record_in result ≡ record_from t.now at }
{
    load_record(t, at, 12)
}

// The newest and the stored record to the words from `at` on, which are the last ones.
#[tactic(auto, unfolding(model::specs::RecordWords::record_size))]
pub fn store_both(t: &mut [u32], at: usize, newest: Record, stored: Record)
    requires { length t.old ≡ at + both_due }
    ensures { t.new ≡ take at t.old ++ both_words (record_in newest) (record_in stored) }
{
    store_record(t, at, 12, newest);
    store_record(t, at + RECORD_WORDS, 12, stored);
}

// The message that the fields say.
#[tactic(auto, unfolding(crate::specs::Handed::fields_from))]
pub fn load_fields(t: &[u32]) -> Message
    requires { length t.now ≡ fields_due }
    ensures { fields_in result ≡ fields_from t.now }
{
    let newest = load_at(t, NEWEST_AT);
    let stored = load_at(t, STORED_AT);
    Message {
        kind: t[0],
        member: t[1],
        slot: t[2],
        operation: t[3],
        count: t[4],
        outcome: t[5],
        newest,
        stored,
    }
}

// The fields of a message.
pub fn store_fields(t: &mut [u32], message: Message)
    requires { length t.old ≡ fields_due }
    ensures { t.new ≡ field_words (fields_in message) }
{
    t[0] = message.kind;
    t[1] = message.member;
    t[2] = message.slot;
    t[3] = message.operation;
    t[4] = message.count;
    t[5] = message.outcome;
    store_both(t, NEWEST_AT, message.newest, message.stored);
}
