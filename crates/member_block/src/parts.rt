// The parts of the member's steps, in place on its block.
ghost use Rattle.std.specs.Prelude.{◌≡◌, cond, ◌+◌, ◌≤◌, eqb, length};
ghost use Rattle.lists.specs.Functions.{from, Within};
ghost use Rattle.lists.specs.Parts.{words};
ghost use Rattle.model.specs.Records.{write};
ghost use Rattle.model.specs.RecordWords.{value_of};
ghost use Rattle.model.specs.Member.{moved, own_record, passed, failed, dropped, took_over};
ghost use Rattle.model.specs.Table.{member_in};
ghost use Rattle.rows.specs.Meaning.{matrix_in};
ghost use Rattle.records.specs.Meaning.{record_for};
ghost use Rattle.checks.specs.Halts.{number};
ghost use Rattle.member_block.specs.Needs.{Block, Running};

use crate::layout::{HALT_AT, OPERATION_AT, OWN_AT, PHASE_AT, SLOT_AT, layout};
use crate::phase::{COMMIT_SENT, HALTED, IDLE};
use checks::halt::Halt;
use checks::steps::joined_matrix;
use records::Record;
use records::steps::{MATRIX_AT, clear, copy_down, load_value, record_size, store_record};
use rows::Row;
use rules::WRITE;

// The value that an operation carries: the given one for a write, the last accepted own one, which lies at `last`, for a read.
pub fn carried(block: &[u32], last: usize, operation: u32, value: [u32; 8]) -> [u32; 8]
    requires { last + 8 ≤ length block.now }
    ensures { value_of (words result)
        ≡ cond (eqb operation write) (value_of (words value)) (value_of (from (words block.now) last)) }
{
    match operation {
        WRITE => value,
        _ => load_value(block, last),
    }
}

// Both message records and the phase written.
#[tactic(auto, using(crate::proofs::Sizes::rooms))]
pub fn note(block: &mut [u32], n: usize, phase: u32, first: Record, second: Record)
    requires { Block n block.old }
    ensures { let m = member_in n block.old in
        member_in n block.new ≡ moved m phase m.halt (record_for n first) (record_for n second) }
{
    let at = layout(n);
    store_record(block, at.first, n, first);
    store_record(block, at.second, n, second);
    block[PHASE_AT] = phase;
}

// A reply that failed a check.
#[tactic(auto, using(crate::proofs::Sizes::rooms))]
pub fn fail(block: &mut [u32], n: usize, halt: Halt)
    requires { Block n block.old }
    ensures { member_in n block.new ≡ failed (member_in n block.old) (number halt) }
{
    let at = layout(n);
    let messages = 2 * record_size(n);
    clear(block, at.first, messages);
    block[PHASE_AT] = HALTED;
    block[HALT_AT] = halt.number();
}

// The first message record and the phase written; the second stays.
#[tactic(auto, using(crate::proofs::Sizes::rooms))]
fn note_first(block: &mut [u32], n: usize, phase: u32, first: Record)
    requires { Block n block.old }
    ensures { let m = member_in n block.old in
        member_in n block.new ≡ moved m phase m.halt (record_for n first) m.second }
{
    let at = layout(n);
    store_record(block, at.first, n, first);
    block[PHASE_AT] = phase;
}

// The member's own record, by the reply's newest and the known matrix.
#[tactic(auto, unfolding(model::specs::Table::member_of), using(crate::proofs::Sizes::rooms))]
fn own_record(block: &[u32], n: usize, member: u32, known: [Row; 12], newest: Record) -> Record
    requires { (Running n block.now) × ((Within n member) × (matrix_in known ≡ (member_in n block.now).known)) }
    ensures { record_for n result ≡ own_record n member (member_in n block.now) (record_for n newest) }
{
    let at = layout(n);
    let slot = block[SLOT_AT];
    let count = block[OWN_AT + (slot as usize) - 1];
    let latest = newest.matrix;
    let value = load_value(block, at.pending);
    let matrix = joined_matrix(known, latest, n, member as usize, slot as usize, count);
    Record {
        member,
        slot,
        operation: block[OPERATION_AT],
        count,
        value,
        matrix,
    }
}

// A reply that passed: the member's own record, the stored one beside it, phase 3.
#[tactic(auto, unfolding(model::specs::Member::passed))]
pub fn pass(
    block: &mut [u32],
    n: usize,
    member: u32,
    known: [Row; 12],
    newest: Record,
    stored: Record,
)
    requires { (Running n block.old) × ((Within n member) × (matrix_in known ≡ (member_in n block.old).known)) }
    ensures { let m = member_in n block.old in
        member_in n block.new ≡ passed n member m (record_for n newest) (record_for n stored) }
{
    let own = own_record(block, n, member, known, newest);
    note(block, n, COMMIT_SENT, own, stored);
}

// The same where the stored record is in its place.
#[tactic(auto, unfolding(model::specs::Member::passed))]
pub fn pass_noted(block: &mut [u32], n: usize, member: u32, known: [Row; 12], newest: Record)
    requires { (Running n block.old) × ((Within n member) × (matrix_in known ≡ (member_in n block.old).known)) }
    ensures { let m = member_in n block.old in
        member_in n block.new ≡ passed n member m (record_for n newest) m.second }
{
    let own = own_record(block, n, member, known, newest);
    note_first(block, n, COMMIT_SENT, own);
}

// The end of an operation of which nothing is taken over.
#[tactic(auto, using(crate::proofs::Sizes::rooms))]
pub fn drop(block: &mut [u32], n: usize)
    requires { Block n block.old }
    ensures { member_in n block.new ≡ dropped (member_in n block.old) }
{
    let at = layout(n);
    clear(block, at.pending, 8);
    clear(block, at.first, 2 * record_size(n));
    block[PHASE_AT] = IDLE;
    block[SLOT_AT] = 0;
    block[OPERATION_AT] = 0;
}

// What an accepted operation leaves the member: its matrix, its count and, for a write, its value.
#[tactic(auto, unfolding(model::specs::Table::member_of), using(crate::proofs::Sizes::rooms, crate::proofs::Laws::set_long))]
pub fn take_over(block: &mut [u32], n: usize)
    requires { Running n block.old }
    ensures { member_in n block.new ≡ took_over (member_in n block.old) }
{
    let at = layout(n);
    let slot = block[SLOT_AT] as usize;
    let operation = block[OPERATION_AT];
    block[at.accepted + slot - 1] = block[OWN_AT + slot - 1];
    copy_down(block, at.known, at.first + MATRIX_AT, n * n);
    if operation == WRITE {
        copy_down(block, at.last, at.pending, 8);
    }
}
