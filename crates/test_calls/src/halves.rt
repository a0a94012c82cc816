// The member half's four calls and its auction begin, on a block, and the host half's two, on the host entries. Numbers and slices stand
// for refusals, records and what is returned, and each kind of board has a begin of its own: this is a C interface, of calls by name.
ghost use Rattle.std.specs.Prelude.{◌≡◌, [], ◌∷◌};
ghost use Rattle.lists.specs.Parts.{words};
ghost use Rattle.model.specs.Kinds.{concur, auction};
ghost use Rattle.model.specs.RecordWords.{value_of};
ghost use Rattle.model.specs.Table.{value_size};
ghost use Rattle.model.specs.Halves.{member_begin_number, member_begin_words, member_crash_number, member_crash_words};
ghost use Rattle.model.specs.Halves.{reply_number, reply_pairs, reply_words, outcome_number, outcome_words, outcome_returns};
ghost use Rattle.model.specs.Halves.{host_number, submit_words, commit_number, commit_words, commit_outcome};
ghost use Rattle.board.specs.Interface.{returned_size, returned_words};
ghost use Rattle.test_calls.specs.Beside.{beside, beside_two};
ghost use Rattle.test_calls.specs.Handed.{record_due, both_due, number_due, record_given, replied_words};

use crate::words::{BOTH_WORDS, RECORD_WORDS, VALUE_WORDS, load_at, store_both};
use board::steps::hand_returned;
use host::{take_commit, take_submit};
use member::{auction, begin, crash, take_outcome, take_reply};
use records::Record;
use records::steps::load_value;
use rules::{Refusal, answered};

#[tactic(auto, using(lists::proofs::Functions::from_zero), unfolding(crate::specs::Beside::beside))]
#[unsafe(no_mangle)]
pub extern "C" fn concur_call_member_begin(
    block: &mut [u32],
    n: u32,
    member: u32,
    slot: u32,
    operation: u32,
    value: &[u32],
) -> u32
    ensures value { result
        ≡ beside value.now value_size 2
        (member_begin_number concur n member block.old slot operation) }
    ensures block_after { block.new
        ≡ beside value.now value_size block.old
        (member_begin_words concur n member block.old slot operation (value_of (words value.now))) }
{
    if value.len() != VALUE_WORDS {
        return Refusal::Length.number();
    }
    let given = load_value(value, 0);
    answered(begin(block, n, member, slot, operation, given))
}

#[tactic(auto, using(lists::proofs::Functions::from_zero), unfolding(crate::specs::Beside::beside))]
#[unsafe(no_mangle)]
pub extern "C" fn concur_call_member_auction_begin(
    block: &mut [u32],
    n: u32,
    member: u32,
    slot: u32,
    operation: u32,
    value: &[u32],
) -> u32
    ensures value { result
        ≡ beside value.now value_size 2
        (member_begin_number auction n member block.old slot operation) }
    ensures block_after { block.new
        ≡ beside value.now value_size block.old
        (member_begin_words auction n member block.old slot operation (value_of (words value.now))) }
{
    if value.len() != VALUE_WORDS {
        return Refusal::Length.number();
    }
    let given = load_value(value, 0);
    answered(auction::begin(block, n, member, slot, operation, given))
}

#[tactic(auto, unfolding(crate::specs::Beside::beside, crate::specs::Beside::beside_two, crate::specs::Handed::record_given))]
#[unsafe(no_mangle)]
pub extern "C" fn concur_call_member_reply(
    block: &mut [u32],
    n: u32,
    member: u32,
    records: &[u32],
    seals: u32,
    pairs: &mut [u32],
) -> u32
    ensures value { result
        ≡ beside_two records.now both_due pairs.old number_due 2
        (reply_number n member block.old
        (record_given n records.now 0) (record_given n records.now record_due) seals) }
    ensures block_after { block.new
        ≡ beside_two records.now both_due pairs.old number_due block.old
        (reply_words n member block.old
        (record_given n records.now 0) (record_given n records.now record_due) seals) }
    ensures pairs_after { pairs.new
        ≡ beside_two records.now both_due pairs.old number_due pairs.old
        (reply_pairs n member block.old
        (record_given n records.now 0) (record_given n records.now record_due) seals ∷ []) }
{
    if records.len() != BOTH_WORDS {
        return Refusal::Length.number();
    }
    if pairs.len() != 1 {
        return Refusal::Length.number();
    }
    let newest = load_at(records, 0);
    let stored = load_at(records, RECORD_WORDS);
    match take_reply(block, n, member, newest, stored, seals) {
        Ok(compared) => {
            pairs[0] = compared;
            0
        }
        Err(refusal) => {
            pairs[0] = 0;
            refusal.number()
        }
    }
}

#[tactic(auto, unfolding(crate::specs::Beside::beside))]
#[unsafe(no_mangle)]
pub extern "C" fn concur_call_member_outcome(
    block: &mut [u32],
    n: u32,
    member: u32,
    outcome: u32,
    returned: &mut [u32],
) -> u32
    ensures value { result
        ≡ beside returned.old returned_size 2
        (outcome_number n member block.old outcome) }
    ensures block_after { block.new
        ≡ beside returned.old returned_size block.old
        (outcome_words n member block.old outcome) }
    ensures returned_after { returned.new
        ≡ beside returned.old returned_size returned.old
        (returned_words (outcome_returns n member block.old outcome)) }
{
    if returned.len() != 9 {
        return Refusal::Length.number();
    }
    match take_outcome(block, n, member, outcome) {
        Ok(value) => {
            hand_returned(returned, value);
            0
        }
        Err(refusal) => {
            hand_returned(returned, None);
            refusal.number()
        }
    }
}

#[unsafe(no_mangle)]
pub extern "C" fn concur_call_member_crash(block: &mut [u32], n: u32, member: u32) -> u32
    ensures value { result ≡ member_crash_number n member block.old }
    ensures block_after { block.new ≡ member_crash_words n member block.old }
{
    answered(crash(block, n, member))
}

#[tactic(auto, unfolding(crate::specs::Beside::beside, crate::specs::Handed::replied_words))]
#[unsafe(no_mangle)]
pub extern "C" fn concur_call_host_submit(
    entries: &mut [u32],
    n: u32,
    member: u32,
    slot: u32,
    operation: u32,
    count: u32,
    records: &mut [u32],
) -> u32
    ensures value { result
        ≡ beside records.old both_due 2
        (host_number n entries.old member slot operation) }
    ensures entries_after { entries.new
        ≡ beside records.old both_due entries.old
        (submit_words n entries.old member slot operation count) }
    ensures records_after { records.new
        ≡ beside records.old both_due records.old
        (replied_words n entries.old member slot operation) }
{
    if records.len() != BOTH_WORDS {
        return Refusal::Length.number();
    }
    match take_submit(entries, n, member, slot, operation, count) {
        Ok(reply) => {
            store_both(records, 0, reply.newest, reply.stored);
            0
        }
        Err(refusal) => {
            store_both(records, 0, Record::zero(), Record::zero());
            refusal.number()
        }
    }
}

#[tactic(auto, unfolding(crate::specs::Beside::beside, crate::specs::Beside::beside_two, crate::specs::Handed::record_given))]
#[unsafe(no_mangle)]
pub extern "C" fn concur_call_host_commit(
    entries: &mut [u32],
    n: u32,
    committed: &[u32],
    outcome: &mut [u32],
) -> u32
    ensures value { result
        ≡ beside_two committed.now record_due outcome.old number_due 2
        (commit_number n entries.old (record_given n committed.now 0)) }
    ensures entries_after { entries.new
        ≡ beside_two committed.now record_due outcome.old number_due entries.old
        (commit_words n entries.old (record_given n committed.now 0)) }
    ensures outcome_after { outcome.new
        ≡ beside_two committed.now record_due outcome.old number_due outcome.old
        (commit_outcome n entries.old (record_given n committed.now 0) ∷ []) }
{
    if committed.len() != RECORD_WORDS {
        return Refusal::Length.number();
    }
    if outcome.len() != 1 {
        return Refusal::Length.number();
    }
    let record = load_at(committed, 0);
    match take_commit(entries, n, record) {
        Ok(verdict) => {
            outcome[0] = verdict.number();
            0
        }
        Err(refusal) => {
            outcome[0] = 0;
            refusal.number()
        }
    }
}
