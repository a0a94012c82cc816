// The host's steps without their tests, in place on the n host entries, and the check of the entries.
ghost use Rattle.std.specs.Prelude.{◌≡◌, ◌≤◌};
ghost use Rattle.lists.specs.Functions.{put};
ghost use Rattle.lists.specs.Parts.{words};
ghost use Rattle.model.specs.Host.{submitted, wins, entry_after, stored_after};
ghost use Rattle.model.specs.Board.{opened};
ghost use Rattle.model.specs.Table.{host_size, host_in, stored_in, sound_host};
ghost use Rattle.records.specs.Meaning.{record_in, record_for};
ghost use Rattle.host.specs.Needs.{Entries, Slot};

use crate::Reply;
use crate::entry::{commit_entry, open_entry, sound_entry, submit_entry};
use crate::layout::{entry_place, entry_size};
use records::Record;

// How many words the n entries have.
pub fn host_size(n: usize) -> usize
    requires { n ≤ 12 }
    ensures { result ≡ host_size n }
{
    n * entry_size(n)
}

// The entries as they are at first: no submit, and each slot's opening record both stored and newest.
pub fn open(entries: &mut [u32], n: u32)
    requires { Entries n entries.old }
    ensures entries_after { host_in n entries.new ≡ (opened n).host }
    ensures entries_after_2 { stored_in n entries.new ≡ (opened n).stored }
{
    let size = entry_size(n as usize);
    for done in 0..n {
        let at = entry_place(n as usize, done as usize + 1);
        let end = at + size;
        open_entry(&mut entries[at..end], n as usize, done + 1);
    }
}

// A submit of member with its count, noted as the slot's newest; the reply is the slot's newest and stored records.
pub fn submit(entries: &mut [u32], n: usize, member: u32, slot: u32, count: u32) -> Reply
    requires { Slot n slot entries.old }
    ensures newest_after { record_in result.newest ≡ (host_in n entries.old slot).newest }
    ensures stored_value { record_in result.stored ≡ stored_in n entries.old slot }
    ensures entries_after { let host = host_in n entries.old in
        host_in n entries.new ≡ put host slot (submitted (host slot) member count) }
    ensures entries_unchanged { stored_in n entries.new ≡ stored_in n entries.old }
{
    let at = entry_place(n, slot as usize);
    let end = at + entry_size(n);
    submit_entry(&mut entries[at..end], n, member, count)
}

// A commit: whether it was accepted.
pub fn commit(entries: &mut [u32], n: usize, committed: Record) -> bool
    requires { Slot n committed.slot entries.old }
    ensures value { result ≡ wins (host_in n entries.old committed.slot) (record_in committed) }
    ensures entries_after { let host = host_in n entries.old in
        host_in n entries.new
        ≡ put host committed.slot (entry_after (host committed.slot) (record_for n committed)) }
    ensures entries_after_2 { let host = host_in n entries.old in
        let stored = stored_in n entries.old in
        stored_in n entries.new
        ≡ put stored committed.slot (stored_after (host committed.slot) (stored committed.slot) (record_for n committed)) }
{
    let slot = committed.slot;
    let at = entry_place(n, slot as usize);
    let end = at + entry_size(n);
    commit_entry(&mut entries[at..end], n, committed)
}

// The check of the n entries, number 3.
pub fn sound_entries(entries: &[u32], n: u32) -> bool
    requires { Entries n entries.now }
    ensures { result ≡ sound_host n (host_in n entries.now) (stored_in n entries.now) }
{
    let size = entry_size(n as usize);
    for passed in 0..n {
        let at = entry_place(n as usize, passed as usize + 1);
        let end = at + size;
        if !sound_entry(&entries[at..end], n) {
            return false;
        }
    }
    true
}
