// One host entry: the host's steps and the check on its words.
ghost use Rattle.std.specs.Prelude.{◌≡◌, cond};
ghost use Rattle.lists.specs.Parts.{words};
ghost use Rattle.model.specs.Kinds.{becomes_stored};
ghost use Rattle.model.specs.Records.{opening};
ghost use Rattle.model.specs.Board.{opening_entry};
ghost use Rattle.model.specs.Host.{submitted, wins, entry_after, stored_after};
ghost use Rattle.model.specs.Table.{entry_in, entry_stored_in, sound_entry};
ghost use Rattle.records.specs.Meaning.{record_in, record_for};
ghost use Rattle.host.specs.Needs.{OneEntry};

use crate::Reply;
use crate::layout::{STORED_AT, SUBMIT_COUNT_AT, SUBMIT_MEMBER_AT, newest_at};
use records::Record;
use records::steps::{copy_down, load_record, record_size, sound_record, store_record};

// The entry with the mark of a submit; the reply is its newest and stored records.
pub fn submit_entry(entry: &mut [u32], n: usize, member: u32, count: u32) -> Reply
    requires { OneEntry n entry.old }
    ensures newest_after { record_in result.newest ≡ (entry_in n entry.old).newest }
    ensures stored_value { record_in result.stored ≡ entry_stored_in n entry.old }
    ensures after { entry_in n entry.new ≡ submitted (entry_in n entry.old) member count }
    ensures unchanged { entry_stored_in n entry.new ≡ entry_stored_in n entry.old }
{
    let newest = load_record(entry, newest_at(n), n);
    let stored = load_record(entry, STORED_AT, n);
    entry[SUBMIT_MEMBER_AT] = member;
    entry[SUBMIT_COUNT_AT] = count;
    Reply { newest, stored }
}

// The entry of a commit that won: the record is the newest, by the slot's owner also the stored one, and there is no newest submit.
fn accept(entry: &mut [u32], n: usize, committed: Record)
    requires { OneEntry n entry.old }
    ensures after { entry_in n entry.new ≡ record { submit_member = 0; submit_count = 0; newest = record_for n committed } }
    ensures after_2 { entry_stored_in n entry.new
        ≡ cond (becomes_stored (record_in committed)) (record_for n committed) (entry_stored_in n entry.old) }
{
    entry[SUBMIT_MEMBER_AT] = 0;
    entry[SUBMIT_COUNT_AT] = 0;
    let at = newest_at(n);
    store_record(entry, at, n, committed);
    if committed.becomes_stored() {
        copy_down(entry, STORED_AT, at, record_size(n));
    }
}

// The entry of a slot at first: as if its opening record, which is by its owner, had just been accepted.
pub fn open_entry(entry: &mut [u32], n: usize, slot: u32)
    requires { OneEntry n entry.old }
    ensures after { entry_in n entry.new ≡ opening_entry slot }
    ensures after_2 { entry_stored_in n entry.new ≡ opening slot }
{
    accept(entry, n, Record::opening(slot));
}

// The entry after a commit, and whether it was accepted.
pub fn commit_entry(entry: &mut [u32], n: usize, committed: Record) -> bool
    requires { OneEntry n entry.old }
    ensures value { result ≡ wins (entry_in n entry.old) (record_in committed) }
    ensures after { entry_in n entry.new ≡ entry_after (entry_in n entry.old) (record_for n committed) }
    ensures after_2 { entry_stored_in n entry.new
        ≡ stored_after (entry_in n entry.old) (entry_stored_in n entry.old) (record_for n committed) }
{
    if entry[SUBMIT_MEMBER_AT] != committed.member {
        return false;
    }
    if entry[SUBMIT_COUNT_AT] != committed.count {
        return false;
    }
    accept(entry, n, committed);
    true
}

// The check of the entry.
#[tactic(auto, unfolding(model::specs::Table::sound_entry, model::specs::Table::entry_of, model::specs::Table::stored_of))]
pub fn sound_entry(entry: &[u32], n: u32) -> bool
    requires { OneEntry n entry.now }
    ensures { result ≡ sound_entry n (entry_in n entry.now) (entry_stored_in n entry.now) }
{
    let at = newest_at(n as usize);
    entry[SUBMIT_MEMBER_AT] <= n && sound_record(entry, STORED_AT, n) && sound_record(entry, at, n)
}
