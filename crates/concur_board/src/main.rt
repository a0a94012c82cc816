// The board program: a script from standard input, and what it prints to standard output.
#![tactic(auto)]

ghost use Rattle.std.specs.Prelude.{◌≤◌, ◌≡◌, ◌||◌, ◌&&◌, not, ltb, ℕ, List, eqb, length, IfOk};
ghost use Rattle.model.specs.Kinds.{concur};
ghost use Rattle.script.specs.Meaning.{longest_printed};
ghost use Rattle.script_run.specs.Feeding.{most_kept, over, fed};
ghost use Rattle.script_run.specs.Meaning.{most_words, state_of, Ready};

use script_run::steps::{feed, finish};
use script_run::{MOST_KEPT, MOST_WORDS, Progress};
use streams::{MOST_TURNS, Reported, read_some, turns_left, write_out};

// How far the script has come, and whether there may be more to read.
#[derive(Clone, Copy)]
struct Turn {
    progress: Progress,
    more: bool,
}

// Feeds the bytes that were read, and writes what they print each time that the output is full.
fn feed_all(
    rt: &(impl Print + Eprint),
    table: &mut [u32],
    kept: &mut [u8],
    p: Progress,
    bytes: &[u8],
    out: &mut [u8],
) -> Result<Progress, Reported>
    requires { (Ready p table.old kept.old) × (longest_printed ≤ length out.old) }
    ensures ready { IfOk result (λ q. Ready q table.new kept.new) }
    ensures fed_all { IfOk result (λ q. state_of q table.new kept.new ≡ (fed concur (state_of p table.old kept.old) bytes.now).state) }
{
    let mut progress = p;
    let mut from = 0;
    // No range goes on by as many bytes as each call takes.
    while from < bytes.len() {
        let fed = feed(table, kept, progress, &bytes[from..], out);
        let written = fed.written;
        write_out(rt, &out[..written])?;
        progress = fed.progress;
        from += fed.taken;
    }
    Ok(progress)
}

// Is there no more to read? A reading got no bytes where the input is over, and of a script that is over no more is looked at.
fn is_done(got: usize, progress: Progress) -> bool
    ensures { (table kept : List ℕ) → result ≡ (eqb got 0 || over (state_of progress table kept)) }
{
    got == 0 || progress.is_over()
}

// Takes the bytes that a reading got. There may be more to read if it got any, and the script is not over.
fn take_piece(
    rt: &(impl Print + Eprint),
    table: &mut [u32],
    kept: &mut [u8],
    p: Progress,
    bytes: &[u8],
    out: &mut [u8],
) -> Result<Turn, Reported>
    requires { (Ready p table.old kept.old) × (longest_printed ≤ length out.old) }
    ensures ready { IfOk result (λ turn. Ready turn.progress table.new kept.new) }
    ensures fed_all { IfOk result (λ turn. state_of turn.progress table.new kept.new
        ≡ (fed concur (state_of p table.old kept.old) bytes.now).state) }
    ensures more_value { IfOk result (λ turn. turn.more
        ≡ (ltb 0 (length bytes.now) && not (over (state_of turn.progress table.new kept.new)))) }
{
    let progress = feed_all(rt, table, kept, p, bytes, out)?;
    Ok(Turn {
        progress,
        more: !is_done(bytes.len(), progress),
    })
}

// Reads until the input or the script is over. Where reading or writing fails, no more is printed.
fn run(
    rt: &(impl Input + Print + Eprint),
    table: &mut [u32],
    kept: &mut [u8],
    input: &mut [u8],
    out: &mut [u8],
) -> Result<(), Reported>
    requires { (length table.old ≡ most_words) × ((length kept.old ≡ most_kept) × (longest_printed ≤ length out.old)) }
{
    let mut progress = Progress::START;
    let mut turns = MOST_TURNS;
    // No `for` over a range of turns: that `turns_left` leaves fewer is what ends it.
    while 0 < turns {
        let got = read_some(rt, input)?;
        let turn = take_piece(rt, table, kept, progress, &input[..got], out)?;
        progress = turn.progress;
        turns = turns_left(turns, turn.more);
    }
    let last = finish(table, kept, progress, out);
    write_out(rt, &out[..last])
}

// The bytes of a reading, and those of what is written at once.
const BUFFER: usize = 65536;

fn main(rt: HostRuntime) {
    let mut table = [0u32; MOST_WORDS];
    let mut kept = [0u8; MOST_KEPT];
    let mut input = [0u8; BUFFER];
    let mut out = [0u8; BUFFER];
    // The exit status is 0 whether it fails or not.
    let _ = run(&rt, &mut table, &mut kept, &mut input, &mut out);
}
