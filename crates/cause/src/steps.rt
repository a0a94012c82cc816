// The answer on a lent table, and what the program prints of it. Each function asks for the room that it needs.
ghost use Rattle.std.specs.Prelude.{◌≡◌, ◌≤◌, length, take};
ghost use Rattle.std.proofs.Math.Option.{Option};
ghost use Rattle.model.specs.Overtaker.{Asked as Operation};
ghost use Rattle.model.specs.Cause.{cause, cause_for, printed_cause};
ghost use Rattle.overtaker.specs.Meaning.{held_asked};
ghost use Rattle.cause.specs.Meaning.{told_cause, longest_answer};

use crate::MOST_LINES;
use crate::lines::search_steps;
use overtaker::steps::{Lines, find_behind};
use overtaker::{Asked, MOST_BYTES};
use rules::Refusal;
use script::parse_members;
use script::steps::{print_bytes, print_field};
use script_run::MOST_WORDS;
use tables::steps::table_size;

// The table is room to run the script in: nothing that it held is looked at. The member and the ordinal are given as to `find_cause`.
pub fn find_on(
    script: &[u8],
    table: &mut [u32; MOST_WORDS],
    member: u32,
    ordinal: u32,
) -> Result<Option<u32>, Refusal>
    ensures { told_cause result ≡ cause script.now member ordinal }
{
    if MOST_BYTES < script.len() {
        return Err(Refusal::Line);
    }
    let mut lines = Lines::of(script);
    let first = lines.next().ok_or(Refusal::Line)?;
    if MOST_LINES < lines.count() {
        return Err(Refusal::Lines);
    }
    let n = parse_members(first).ok_or(Refusal::Line)?;
    let asked = Asked { member, ordinal };
    find_behind(lines, table, n, asked)?;
    let size = table_size(n as usize);
    Ok(search_steps(&mut table[..size], n, lines, asked))
}

// The same of the operation that the arguments ask for.
#[tactic(auto, unfolding(model::specs::Cause::cause_for, model::specs::Overtaker::for_asked))]
pub fn find_asked(
    script: &[u8],
    table: &mut [u32; MOST_WORDS],
    asked: Option<Asked>,
) -> Result<Option<u32>, Refusal>
    ensures { (a : Option Operation) → asked ≡ held_asked a → told_cause result ≡ cause_for a script.now }
{
    let asked = asked.ok_or(Refusal::Line)?;
    find_on(script, table, asked.member, asked.ordinal)
}

// The line printed of an answer, at the front of the output.
#[tactic(auto, unfolding(model::specs::Cause::printed_cause), using(overtaker::proofs::Answers::printed_front))]
fn print_answer(out: &mut [u8], found: Result<Option<u32>, Refusal>) -> usize
    requires { longest_answer ≤ length out.old }
    ensures upper_bound { result ≤ length out.new }
    ensures out_after { take result out.new ≡ printed_cause (told_cause found) }
{
    match found {
        Ok(Some(step)) => print_field(out, 0, Some(step), b'\n'),
        Ok(None) => print_bytes(out, 0, b"none\n"),
        Err(refusal) => print_field(out, 0, Some(refusal.number()), b'\n'),
    }
}

// What the program prints of what it read.
pub fn answer(
    script: &[u8],
    table: &mut [u32; MOST_WORDS],
    asked: Option<Asked>,
    out: &mut [u8],
) -> usize
    requires { longest_answer ≤ length out.old }
    ensures upper_bound { result ≤ length out.new }
    ensures out_after { (a : Option Operation) → asked ≡ held_asked a
        → take result out.new ≡ printed_cause (cause_for a script.now) }
{
    print_answer(out, find_asked(script, table, asked))
}
