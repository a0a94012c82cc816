// The member's steps without their tests, in place on its block: what the public calls and the board do once nothing refuses.
ghost use Rattle.std.specs.Prelude.{◌≡◌, ◌≤◌, OnOk};
ghost use Rattle.lists.specs.Parts.{words};
ghost use Rattle.model.specs.RecordWords.{value_of};
ghost use Rattle.model.specs.Member.{begun, answered, replied, judged, outcome, returned_by, crashed_of};
ghost use Rattle.model.specs.Pairs.{halt_pairs};
ghost use Rattle.model.specs.Kinds.{Kind as BoardKind};
ghost use Rattle.model.specs.Numbers.{begin_answer, deliver_answer, crash_answer};
ghost use Rattle.model.specs.Board.{sent_record};
ghost use Rattle.model.specs.Table.{block_size, member_in, sound_member};
ghost use Rattle.records.specs.Meaning.{record_in, record_for};
ghost use Rattle.lists.specs.Functions.{Within};
ghost use Rattle.rules.specs.Refusals.{answer};
ghost use Rattle.member_block.specs.Needs.{Block, Begins, Running};
ghost use Rattle.member_block.specs.Results.{returned_in};

use crate::halts::halt_of;
pub use crate::layout::{CRASHED_AT, PHASE_AT};
use crate::layout::{HALT_AT, OPERATION_AT, OWN_AT, SLOT_AT, layout};
use crate::marks::{sound_marks, sound_operation};
use crate::parts::{carried, drop, fail, note, pass, pass_noted, take_over};
use crate::phase::{ABORTED_SENT, ACCEPTED_SENT, REPLY_SENT, SUBMIT_SENT};
use records::Record;
use records::steps::{
    MATRIX_AT, VALUE_AT, load_matrix, load_record, load_value, sound_record, store_value,
};
use rules::{Kind, READ, Refusal, is_numbered};

// A submit: the operation's slot and own count.
#[derive(Clone, Copy)]
pub struct Submit {
    pub slot: u32,
    pub count: u32,
}

// How many words a block has.
pub fn block_size(n: usize) -> usize
    requires { n ≤ 12 }
    ensures { result ≡ block_size n }
{
    let at = layout(n);
    at.size
}

// The block of a member, by its numbers and its two message records.
#[tactic(auto, using(crate::proofs::Sizes::rooms, crate::proofs::Laws::sound_by_words))]
pub fn sound_block(block: &[u32], n: u32, member: u32) -> bool
    requires { Block n block.now }
    ensures { result ≡ sound_member n member (member_in n block.now) }
{
    let at = layout(n as usize);
    let phase = block[PHASE_AT];
    let slot = block[SLOT_AT];
    let operation = block[OPERATION_AT];
    sound_marks(phase, block[CRASHED_AT], block[HALT_AT])
        && slot <= n
        && operation <= 2
        && sound_operation(member, phase, slot, operation)
        && sound_record(block, at.first, n)
        && sound_record(block, at.second, n)
}

// The own count of a slot; there is none, 0, outside 1 to n.
#[tactic(auto, unfolding(lists::specs::Functions::inside), using(crate::proofs::Sizes::rooms, crate::proofs::Sizes::own_of))]
pub fn own_count(block: &[u32], n: u32, slot: u32) -> u32
    requires { Block n block.now }
    ensures { result ≡ (member_in n block.now).own slot }
{
    if !is_numbered(slot, n) {
        return 0;
    }
    let at = OWN_AT + (slot as usize) - 1;
    block[at]
}

// The member's phase.
#[tactic(auto, unfolding(model::specs::Table::member_of), using(crate::proofs::Sizes::rooms))]
pub fn phase_of(block: &[u32], n: usize) -> u32
    requires { Block n block.now }
    ensures { result ≡ (member_in n block.now).phase }
{
    block[PHASE_AT]
}

// What refuses a begin, a deliver and a crash on a block whose own numbers passed: the numbers from 4 on. A begin's limit is its kind's.
#[tactic(auto, unfolding(model::specs::Table::member_of), using(crate::proofs::Sizes::rooms))]
pub fn check_begin(
    block: &[u32],
    kind: Kind,
    n: u32,
    member: u32,
    slot: u32,
    operation: u32,
) -> Result<(), Refusal>
    requires { Block n block.now }
    ensures fact { let m = member_in n block.now in
        ((k : BoardKind) → kind.limit ≡ k.limit
        → answer result ≡ begin_answer k n m.phase m.crashed (m.own slot) member slot operation) }
    ensures begins { OnOk result (Begins n block.now slot) }
{
    let count = own_count(block, n, slot);
    let phase = block[PHASE_AT];
    rules::check_begin(
        kind,
        n,
        phase,
        block[CRASHED_AT],
        count,
        member,
        slot,
        operation,
    )
}

#[tactic(auto, unfolding(model::specs::Table::member_of), using(crate::proofs::Sizes::rooms))]
pub fn check_deliver(block: &[u32], n: u32, member: u32) -> Result<(), Refusal>
    requires { Block n block.now }
    ensures { let m = member_in n block.now in answer result ≡ deliver_answer n m.phase m.crashed member }
{
    rules::check_deliver(n, block[PHASE_AT], block[CRASHED_AT], member)
}

#[tactic(auto, unfolding(model::specs::Table::member_of), using(crate::proofs::Sizes::rooms))]
pub fn check_crash(block: &[u32], n: u32, member: u32) -> Result<(), Refusal>
    requires { Block n block.now }
    ensures { let m = member_in n block.now in answer result ≡ crash_answer n m.phase m.crashed member }
{
    rules::check_crash(n, block[PHASE_AT], block[CRASHED_AT], member)
}

// The submit of a running operation: its slot and count.
#[tactic(auto, unfolding(model::specs::Table::member_of), using(crate::proofs::Sizes::rooms, crate::proofs::Sizes::own_at_lem))]
pub fn submit_of(block: &[u32], n: usize) -> Submit
    requires { Running n block.now }
    ensures { let m = member_in n block.now in (result.slot ≡ m.slot) × (result.count ≡ m.own m.slot) }
{
    let slot = block[SLOT_AT];
    let count = block[OWN_AT + (slot as usize) - 1];
    Submit { slot, count }
}

// The record that a commit sends: the first message record's value and matrix under the block's own slot, type and count.
#[tactic(auto, unfolding(model::specs::Table::member_of), using(crate::proofs::Sizes::rooms))]
pub fn commit_of(block: &[u32], n: usize, member: u32) -> Record
    requires { Running n block.now }
    ensures { record_in result ≡ sent_record member (member_in n block.now) }
{
    let at = layout(n);
    let slot = block[SLOT_AT];
    let value = load_value(block, at.first + VALUE_AT);
    let matrix = load_matrix(block, at.first + MATRIX_AT, n);
    Record {
        member,
        slot,
        operation: block[OPERATION_AT],
        count: block[OWN_AT + (slot as usize) - 1],
        value,
        matrix,
    }
}

// The start of an operation.
#[tactic(auto, using(crate::proofs::Sizes::rooms, crate::proofs::Sizes::own_at_lem, crate::proofs::Laws::set_long))]
pub fn begin(block: &mut [u32], n: usize, slot: u32, operation: u32, value: [u32; 8])
    requires { Begins n block.old slot }
    ensures { member_in n block.new ≡ begun (member_in n block.old) slot operation (value_of (words value)) }
{
    let at = layout(n);
    let pending = carried(block, at.last, operation, value);
    let own = OWN_AT + (slot as usize) - 1;
    block[own] = block[own] + 1;
    store_value(block, at.pending, pending);
    block[PHASE_AT] = SUBMIT_SENT;
    block[SLOT_AT] = slot;
    block[OPERATION_AT] = operation;
}

// The host's reply, noted: phase 2.
#[tactic(auto, unfolding(model::specs::Member::answered))]
pub fn answer(block: &mut [u32], n: usize, newest: Record, stored: Record)
    requires { Block n block.old }
    ensures { let m = member_in n block.old in
        member_in n block.new ≡ answered m (record_for n newest) (record_for n stored) }
{
    note(block, n, REPLY_SENT, newest, stored);
}

// A reply taken: the checks, and what follows from them. It answers the pairs of counts that the checks compared.
#[tactic(auto, using(crate::proofs::Sizes::rooms, crate::proofs::Laws::known_loaded, crate::proofs::Laws::replied_pairs))]
pub fn reply(
    block: &mut [u32],
    n: usize,
    member: u32,
    newest: Record,
    stored: Record,
    seals: u32,
) -> u32
    requires { (Running n block.old) × (Within n member) }
    ensures result_value { let m = member_in n block.old in
        result ≡ halt_pairs n member m (record_for n newest) (record_for n stored) seals }
    ensures block_after { let m = member_in n block.old in
        member_in n block.new ≡ replied n member m (record_for n newest) (record_for n stored) seals }
{
    let at = layout(n);
    let known = load_matrix(block, at.known, n);
    let found = halt_of(block, n, member as usize, known, newest, stored, seals);
    match found.halt {
        Some(halt) => fail(block, n, halt),
        None => pass(block, n, member, known, newest, stored),
    }
    found.pairs
}

// The reply in the block's own two message records, whose seals held.
#[tactic(auto, using(crate::proofs::Sizes::rooms, crate::proofs::Laws::known_loaded))]
pub fn reply_noted(block: &mut [u32], n: usize, member: u32)
    requires { (Running n block.old) × (Within n member) }
    ensures { let m = member_in n block.old in
        member_in n block.new ≡ replied n member m m.first m.second 3 }
{
    let at = layout(n);
    let known = load_matrix(block, at.known, n);
    let newest = load_record(block, at.first, n);
    let stored = load_record(block, at.second, n);
    match halt_of(block, n, member as usize, known, newest, stored, 3).halt {
        Some(halt) => fail(block, n, halt),
        None => pass_noted(block, n, member, known, newest),
    }
}

// The host's verdict, noted: phase 4 or 5.
#[tactic(auto, using(crate::proofs::Sizes::rooms, crate::proofs::Laws::judged_set))]
pub fn judge(block: &mut [u32], n: usize, won: bool)
    requires { Block n block.old }
    ensures { member_in n block.new ≡ judged (member_in n block.old) won }
{
    block[PHASE_AT] = if won { ACCEPTED_SENT } else { ABORTED_SENT };
}

// The outcome taken, and the value that an accepted read returns.
#[tactic(auto, using(crate::proofs::Sizes::rooms, crate::proofs::Laws::ended, crate::proofs::Laws::returned))]
pub fn finish(block: &mut [u32], n: usize, accepted: bool) -> Option<[u32; 8]>
    requires { Running n block.old }
    ensures taken { returned_in result ≡ returned_by (member_in n block.old) accepted }
    ensures block_after { member_in n block.new ≡ outcome (member_in n block.old) accepted }
{
    if !accepted {
        drop(block, n);
        return None;
    }
    let at = layout(n);
    let value = load_value(block, at.second + VALUE_AT);
    let operation = block[OPERATION_AT];
    take_over(block, n);
    drop(block, n);
    match operation {
        READ => Some(value),
        _ => None,
    }
}

// The crash mark.
#[tactic(auto, using(crate::proofs::Sizes::rooms, crate::proofs::Laws::crashed_set))]
pub fn mark_crashed(block: &mut [u32], n: usize)
    requires { Block n block.old }
    ensures { member_in n block.new ≡ crashed_of (member_in n block.old) }
{
    block[CRASHED_AT] = 1;
}
