// The calls on a table that passed its check: the numbers from 4 on, then the step.
ghost use Rattle.std.specs.Prelude.{◌≡◌, cond, eqb};
ghost use Rattle.std.proofs.Math.Option.{none};
ghost use Rattle.lists.specs.Parts.{words};
ghost use Rattle.model.specs.Kinds.{Kind as BoardKind, concur};
ghost use Rattle.model.specs.RecordWords.{value_of};
ghost use Rattle.model.specs.Board.{board_delivered, board_returned};
ghost use Rattle.model.specs.Runs.{begin as beginCall, deliver as deliverCall, crash as crashCall, answer_of, done_returns};
ghost use Rattle.model.specs.Table.{board_by};
ghost use Rattle.rules.specs.Refusals.{answer};
ghost use Rattle.member_block.specs.Results.{returned_in, returned_of};
ghost use Rattle.tables.specs.Needs.{Table, Sound, Left};
ghost use Rattle.table_calls.specs.Needs.{Turn, Answered};

use crate::phases::{commit_taken, outcome_taken, reply_taken, submit_taken};
use member_block::phase::{ACCEPTED_SENT, COMMIT_SENT, REPLY_SENT, SUBMIT_SENT};
use member_block::steps::{
    begin, block_size, check_begin, check_crash, check_deliver, mark_crashed, phase_of,
};
use rules::{Kind, Refusal, is_numbered};
use tables::steps::block_at;

// Begin, with the limit of the board's kind.
pub fn begin_on(
    table: &mut [u32],
    kind: Kind,
    n: u32,
    member: u32,
    slot: u32,
    operation: u32,
    value: [u32; 8],
) -> Result<(), Refusal>
    requires { Table n table.old }
    ensures { (k : BoardKind) → kind.limit ≡ k.limit
        → Answered k n table.old (beginCall member slot operation (value_of (words value))) (answer result) table.new }
{
    if !is_numbered(member, n) {
        return Err(Refusal::Member);
    }
    let at = block_at(n as usize, member as usize);
    let end = at + block_size(n as usize);
    check_begin(&table[at..end], kind, n, member, slot, operation)?;
    begin(&mut table[at..end], n as usize, slot, operation, value);
    Ok(())
}

// The step of a deliver that nothing refuses, by the member's phase.
fn delivered(table: &mut [u32], n: usize, member: u32, phase: u32) -> Option<[u32; 8]>
    requires { (Turn n member table.old) × (phase ≡ ((board_by n table.old).members member).phase) }
    ensures taken { returned_in result ≡ board_returned (board_by n table.old) member }
    ensures left { Left n (board_delivered n (board_by n table.old) member) table.new }
{
    match phase {
        SUBMIT_SENT => submit_taken(table, n, member),
        REPLY_SENT => reply_taken(table, n, member),
        COMMIT_SENT => commit_taken(table, n, member),
        _ => return outcome_taken(table, n, member, phase == ACCEPTED_SENT),
    }
    None
}

pub fn deliver_on(table: &mut [u32], n: u32, member: u32) -> Result<Option<[u32; 8]>, Refusal>
    requires { Sound n table.old }
    ensures answered { Answered concur n table.old (deliverCall member) (answer result) table.new }
    ensures result_value { let b = board_by n table.old in
        returned_of result ≡ cond (eqb (answer_of concur n b (deliverCall member)) 0) (done_returns b (deliverCall member)) none }
{
    if !is_numbered(member, n) {
        return Err(Refusal::Member);
    }
    let at = block_at(n as usize, member as usize);
    let end = at + block_size(n as usize);
    check_deliver(&table[at..end], n, member)?;
    let phase = phase_of(&table[at..end], n as usize);
    Ok(delivered(table, n as usize, member, phase))
}

pub fn crash_on(table: &mut [u32], n: u32, member: u32) -> Result<(), Refusal>
    requires { Table n table.old }
    ensures { Answered concur n table.old (crashCall member) (answer result) table.new }
{
    if !is_numbered(member, n) {
        return Err(Refusal::Member);
    }
    let at = block_at(n as usize, member as usize);
    let end = at + block_size(n as usize);
    check_crash(&table[at..end], n, member)?;
    mark_crashed(&mut table[at..end], n as usize);
    Ok(())
}
