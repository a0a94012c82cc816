// The answer on a lent table, and what the program prints of it. Each function asks for the room that it needs.
ghost use Rattle.std.specs.Prelude.{◌≡◌, ◌≤◌, length, take};
ghost use Rattle.std.proofs.Math.Option.{Option};
ghost use Rattle.model.specs.Overtaker.{most_bytes, lines_overtaker, overtaker, Asked as Operation, overtaker_for};
ghost use Rattle.model.specs.Overtaker.{printed_overtaker};
ghost use Rattle.overtaker_search.specs.Meaning.{told_overtaker};
ghost use Rattle.overtaker.specs.Lines.{lines_left};
ghost use Rattle.overtaker.specs.Meaning.{held_asked, longest_answer};

pub use crate::lines::Lines;
use crate::lines::well_formed;
pub use crate::passes::search_board;
use crate::{Asked, MOST_BYTES, Overtaker};
use rules::{MOST_MEMBERS, Refusal, is_numbered};
use script::parse_members;
use script::steps::{print_field, print_pair};
use script_run::MOST_WORDS;
use tables::steps::table_size;

// The lines behind the first, for a board of n members.
#[tactic(auto, unfolding(model::specs::Overtaker::lines_overtaker), using(model::proofs::Cause::without_none))]
pub fn find_behind(
    lines: Lines,
    table: &mut [u32; MOST_WORDS],
    n: u32,
    asked: Asked,
) -> Result<Overtaker, Refusal>
    requires { length (lines_left lines) ≤ most_bytes }
    ensures { told_overtaker result ≡ lines_overtaker n (lines_left lines.entry) asked.member asked.ordinal }
{
    if is_numbered(n, MOST_MEMBERS) {
        let size = table_size(n as usize);
        return search_board(&mut table[..size], n, lines, None, asked);
    }
    if well_formed(lines) {
        return Err(Refusal::Size);
    }
    Err(Refusal::Line)
}

// The table is room to run the script in: nothing that it held is looked at. The member and the ordinal are given as to `find_overtaker`.
#[tactic(auto, unfolding(model::specs::Overtaker::overtaker))]
pub fn find_on(
    script: &[u8],
    table: &mut [u32; MOST_WORDS],
    member: u32,
    ordinal: u32,
) -> Result<Overtaker, Refusal>
    ensures { told_overtaker result ≡ overtaker script.now member ordinal }
{
    if MOST_BYTES < script.len() {
        return Err(Refusal::Line);
    }
    let mut lines = Lines::of(script);
    let first = lines.next().ok_or(Refusal::Line)?;
    let n = parse_members(first).ok_or(Refusal::Line)?;
    find_behind(lines, table, n, Asked { member, ordinal })
}

// The same of the operation that the arguments ask for.
#[tactic(auto, unfolding(model::specs::Overtaker::overtaker_for, model::specs::Overtaker::for_asked))]
pub fn find_asked(
    script: &[u8],
    table: &mut [u32; MOST_WORDS],
    asked: Option<Asked>,
) -> Result<Overtaker, Refusal>
    ensures { (a : Option Operation) → asked ≡ held_asked a → told_overtaker result ≡ overtaker_for a script.now }
{
    let asked = asked.ok_or(Refusal::Line)?;
    find_on(script, table, asked.member, asked.ordinal)
}

// The line printed of an answer, at the front of the output.
#[tactic(auto, unfolding(model::specs::Overtaker::printed_overtaker), using(crate::proofs::Answers::printed_front))]
fn print_answer(out: &mut [u8], found: Result<Overtaker, Refusal>) -> usize
    requires { longest_answer ≤ length out.old }
    ensures upper_bound { result ≤ length out.new }
    ensures out_after { take result out.new ≡ printed_overtaker (told_overtaker found) }
{
    match found {
        Ok(overtaker) => print_pair(out, 0, overtaker.member, overtaker.step),
        Err(refusal) => print_field(out, 0, Some(refusal.number()), b'\n'),
    }
}

// What the program prints of what it read.
pub fn answer(
    script: &[u8],
    table: &mut [u32; MOST_WORDS],
    asked: Option<Asked>,
    out: &mut [u8],
) -> usize
    requires { longest_answer ≤ length out.old }
    ensures upper_bound { result ≤ length out.new }
    ensures out_after { (a : Option Operation) → asked ≡ held_asked a
        → take result out.new ≡ printed_overtaker (overtaker_for a script.now) }
{
    print_answer(out, find_asked(script, table, asked))
}
