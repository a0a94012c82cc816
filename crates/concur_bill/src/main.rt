// The bill program: a script from standard input, and the bill of its members to standard output.
#![tactic(auto)]

ghost use Rattle.std.specs.Prelude.{◌≤◌, ◌≡◌, ◌||◌, ◌&&◌, not, ltb, ℕ, List, eqb, length};
ghost use Rattle.script_run.specs.Feeding.{most_kept, over};
ghost use Rattle.script_run.specs.Meaning.{most_words, state_of};
ghost use Rattle.tariff.specs.Counting.{longest_bill};
ghost use Rattle.bill.specs.Meaning.{Going, CountedAll};

use bill::Counted;
use bill::steps::{feed, finish};
use script_run::{MOST_KEPT, MOST_WORDS, Progress};
use streams::{MOST_TURNS, Reported, read_some, turns_left, write_out};
use tariff::Accounts;

// What was counted so far, and whether there may be more to read.
#[derive(Clone, Copy)]
struct Turn {
    counted: Counted,
    more: bool,
}

// Is there no more to read? A reading got no bytes where the input is over, and of a script that is over no more is looked at.
fn is_done(got: usize, progress: Progress) -> bool
    ensures { (table kept : List ℕ) → result ≡ (eqb got 0 || over (state_of progress table kept)) }
{
    got == 0 || progress.is_over()
}

// Takes the bytes that a reading got. There may be more to read if it got any, and the script is not over.
fn take_piece(table: &mut [u32], kept: &mut [u8], counted: Counted, bytes: &[u8]) -> Turn
    requires { Going counted table.old kept.old }
    ensures counted_all { CountedAll counted table.old kept.old bytes.now result.counted table.new kept.new }
    ensures more_value { result.more
        ≡ (ltb 0 (length bytes.now) && not (over (state_of result.counted.progress table.new kept.new))) }
{
    let next = feed(table, kept, counted, bytes);
    Turn {
        counted: next,
        more: !is_done(bytes.len(), next.progress),
    }
}

// Reads until the input or the script is over, and writes the bill. There is none where reading fails.
fn run(
    rt: &(impl Input + Print + Eprint),
    table: &mut [u32],
    kept: &mut [u8],
    input: &mut [u8],
    out: &mut [u8],
) -> Result<(), Reported>
    requires { (length table.old ≡ most_words) × ((length kept.old ≡ most_kept) × (longest_bill ≤ length out.old)) }
{
    let mut counted = Counted {
        progress: Progress::START,
        accounts: Accounts::start(),
    };
    let mut turns = MOST_TURNS;
    // No `for` over a range of turns: that `turns_left` leaves fewer is what ends it.
    while 0 < turns {
        let got = read_some(rt, input)?;
        let turn = take_piece(table, kept, counted, &input[..got]);
        counted = turn.counted;
        turns = turns_left(turns, turn.more);
    }
    let last = finish(table, kept, counted, out);
    write_out(rt, &out[..last])
}

// The bytes of a reading, and room for the bill.
const BUFFER: usize = 65536;

// As in the board program, `main` has the buffers alone: what a program does with them is its own `run`.
fn main(rt: HostRuntime) {
    let mut table = [0u32; MOST_WORDS];
    let mut kept = [0u8; MOST_KEPT];
    let mut input = [0u8; BUFFER];
    let mut out = [0u8; BUFFER];
    // The exit status is 0 whether it fails or not.
    let _ = run(&rt, &mut table, &mut kept, &mut input, &mut out);
}
