// The host half: take a submit, take a commit, on the n host entries. The type is handed in as a number, since number 6 refuses any other
// one: an enum would ask the caller to judge it.
#![tactic(auto)]

ghost use Rattle.std.specs.Prelude.{◌≡◌, IfOk};
ghost use Rattle.model.specs.Halves.{host_number, submit_words, submit_newest, submit_stored, commit_number, commit_outcome, commit_words};
ghost use Rattle.records.specs.Meaning.{record_in, record_for};
ghost use Rattle.rules.specs.Refusals.{answer};
ghost use Rattle.host.specs.Verdicts.{outcome, outcome_in};

mod check;
mod entry;
mod layout;
pub mod steps;

use check::check_host;
use records::Record;
use rules::Refusal;

// What a submit is answered: the slot's newest and stored records.
#[derive(Clone, Copy)]
pub struct Reply {
    pub newest: Record,
    pub stored: Record,
}

// What a commit is answered.
#[derive(Clone, Copy, Debug, PartialEq, Eq)]
pub enum Verdict {
    Accepted = 1,
    Aborted = 2,
}

impl Verdict {
    // Its number, as an outcome's message has it.
    pub fn number(self) -> u32
        ensures { result ≡ outcome self }
    {
        self as u32
    }
}

#[tactic(auto, unfolding(model::specs::Halves::submit_newest, model::specs::Halves::submit_stored))]
pub fn take_submit(
    entries: &mut [u32],
    n: u32,
    member: u32,
    slot: u32,
    operation: u32,
    count: u32,
) -> Result<Reply, Refusal>
    ensures number_value { answer result ≡ host_number n entries.old member slot operation }
    ensures newest_after { IfOk result (λ reply. record_in reply.newest ≡ submit_newest n entries.old slot) }
    ensures stored_value { IfOk result (λ reply. record_in reply.stored ≡ submit_stored n entries.old slot) }
    ensures entries_after { entries.new ≡ submit_words n entries.old member slot operation count }
{
    check_host(entries, n, member, slot, operation)?;
    Ok(steps::submit(entries, n as usize, member, slot, count))
}

#[tactic(auto, unfolding(model::specs::Halves::commit_number, model::specs::Records::record_within, records::specs::Meaning::record_in))]
pub fn take_commit(entries: &mut [u32], n: u32, committed: Record) -> Result<Verdict, Refusal>
    ensures number_value { answer result ≡ commit_number n entries.old (record_for n committed) }
    ensures outcome_value { outcome_in result ≡ commit_outcome n entries.old (record_for n committed) }
    ensures entries_after { entries.new ≡ commit_words n entries.old (record_for n committed) }
{
    let Record {
        member,
        slot,
        operation,
        ..
    } = committed;
    check_host(entries, n, member, slot, operation)?;
    if steps::commit(entries, n as usize, committed) {
        return Ok(Verdict::Accepted);
    }
    Ok(Verdict::Aborted)
}
