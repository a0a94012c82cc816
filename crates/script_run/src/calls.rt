// The call that a line makes, and what is read off the table after it.
ghost use Rattle.std.specs.Prelude.{◌≡◌};
ghost use Rattle.std.proofs.Math.Option.{none};
ghost use Rattle.model.specs.Kinds.{concur};
ghost use Rattle.model.specs.TableCalls.{table_answer, table_after, table_returns, phase_words};
ghost use Rattle.rules.specs.Refusals.{answer};
ghost use Rattle.member_block.specs.Results.{returned_in, returned_of};
ghost use Rattle.script_run.specs.Meaning.{call_by, Whole};

use board::{begin, crash, deliver};
use rules::{READ, Refusal, WRITE, is_numbered};
use script::Line;
use tables::steps::phase;

// The outcome of a call that returns no value.
fn no_value(outcome: Result<(), Refusal>) -> Result<Option<[u32; 8]>, Refusal>
    ensures number_value { answer result ≡ answer outcome }
    ensures result_value { returned_of result ≡ none }
{
    match outcome {
        Ok(()) => Ok(None),
        Err(refusal) => Err(refusal),
    }
}

// The call of a line: V of a write fills the value's last word.
pub fn make_call(table: &mut [u32], line: Line) -> Result<Option<[u32; 8]>, Refusal>
    ensures number_value { answer result ≡ table_answer concur table.old (call_by line) }
    ensures result_value { returned_of result ≡ table_returns concur table.old (call_by line) }
    ensures table_after { table.new ≡ table_after concur table.old (call_by line) }
{
    match line {
        Line::Write { member, value } => {
            let value = [0, 0, 0, 0, 0, 0, 0, value];
            no_value(begin(table, member, member, WRITE, value))
        }
        Line::Read { member, slot } => { no_value(begin(table, member, slot, READ, [0; 8])) }
        Line::Deliver { member } => deliver(table, member),
        Line::Crash { member } => no_value(crash(table, member)),
    }
}

// What is kept of a call's outcome: the number that it answers, and the value where it returns one.
pub fn outcome_parts(outcome: Result<Option<[u32; 8]>, Refusal>) -> (u32, Option<[u32; 8]>)
    ensures number_value { result.0 ≡ answer outcome }
    ensures result_value { returned_in result.1 ≡ returned_of outcome }
{
    match outcome {
        Ok(returned) => (0, returned),
        Err(refusal) => (refusal.number(), None),
    }
}

// A member's phase, and 0 where there is no such member: a number, as `phase_words` has it, which the line printed shows.
pub fn phase_of(table: &[u32], member: u32) -> u32
    requires { Whole table.now }
    ensures { result ≡ phase_words table.now member }
{
    let n = table[0];
    if is_numbered(member, n) {
        return phase(table, n, member);
    }
    0
}
