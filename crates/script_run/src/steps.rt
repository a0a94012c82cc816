// A script fed in pieces, line by line and by value, and what the board program prints of it. Each function asks for the room that it
// needs.
ghost use Rattle.std.specs.Prelude.{◌≡◌, cond, List, ◌+◌, ◌≤◌, ◌<◌, eqb, length};
ghost use Rattle.std.proofs.Math.Option.{Option as Given, none, some};
ghost use Rattle.model.specs.Kinds.{concur};
ghost use Rattle.model.specs.Runs.{Step};
ghost use Rattle.model.specs.Script.{last_word, printed_step};
ghost use Rattle.script.specs.Meaning.{given, longest_printed};
ghost use Rattle.member_block.specs.Results.{returned_in};
ghost use Rattle.script_run.specs.Feeding.{Event as Happened, last_events, printed_events};
ghost use Rattle.script_run.specs.Meaning.{StepHeld, EventsHeld, state_of, Ready, Took, Wrote, FedInto, Finished};

pub use crate::lines::run_line;
use crate::lines::{begun, end_line, keep_byte};
use crate::{Done, Event, Fed, Progress, Written};
use rules::Refusal;
use script::LONGEST_PRINTED;
use script::steps::{print_board, print_line, print_refused};

// Bytes of a script, up to the end of a line and with its line feed, and what happened at it. All of them, and nothing, if the script is
// over.
pub fn take_line(table: &mut [u32], kept: &mut [u8], p: Progress, bytes: &[u8]) -> Fed
    requires { Ready p table.old kept.old }
    ensures { Took p table.old kept.old bytes.now result table.new kept.new }
{
    if p.is_over() {
        return Fed {
            progress: p,
            taken: bytes.len(),
            event: None,
        };
    }
    let mut line = p;
    for (i, b) in bytes.iter().enumerate() {
        if *b == b'\n' {
            let ended = end_line(table, kept, line);
            return Fed {
                progress: ended.progress,
                taken: i + 1,
                event: Some(ended.event),
            };
        }
        line.kept = keep_byte(kept, line.kept, *b);
    }
    Fed {
        progress: line,
        taken: bytes.len(),
        event: None,
    }
}

// The end of the input: a last line that lacks its line feed.
pub fn last_line(table: &mut [u32], kept: &[u8], p: Progress) -> Option<Event>
    requires { Ready p table.old kept.now }
    ensures { EventsHeld result (last_events concur (state_of p table.old kept.now)) }
{
    if p.is_over() {
        return None;
    }
    if !begun(p.step, p.kept) {
        return None;
    }
    Some(end_line(table, kept, p).event)
}

// The phase that is printed beside an answer: for 4 there is none.
fn shown_phase(answer: u32, phase: u32) -> Option<u32>
    ensures { given result ≡ cond (eqb answer 4) none (some phase) }
{
    if answer == Refusal::Member.number() {
        return None;
    }
    Some(phase)
}

// The last word of the value that a call returned.
#[tactic(auto, using(crate::proofs::Held::last_word_lem), unfolding(model::specs::Script::last_word))]
fn returned_word(returned: Option<[u32; 8]>) -> Option<u32>
    ensures { given result ≡ last_word (returned_in returned) }
{
    let value = returned?;
    Some(value[7])
}

// The line printed of a step. A malformed line is answered 17, and shows no phase.
fn print_step(out: &mut [u8], at: usize, step: u32, done: Option<Done>) -> usize
    requires { at + longest_printed ≤ length out.old }
    ensures { (s : Given Step) → StepHeld done s → Wrote out.old out.new at (printed_step step s) result }
{
    let Some(done) = done else {
        return print_line(out, at, step, Refusal::Line.number(), None, None);
    };
    let answer = done.answer();
    let phase = shown_phase(answer, done.phase);
    let word = returned_word(done.returned);
    print_line(out, at, step, answer, phase, word)
}

// What is printed of an event.
#[tactic(auto, using(script::proofs::Printing::board_short, script::proofs::Printing::refused_short))]
pub fn print_event(out: &mut [u8], at: usize, event: Option<Event>) -> usize
    requires { at + longest_printed ≤ length out.old }
    ensures { (l : List Happened) → EventsHeld event l → Wrote out.old out.new at (printed_events l) result }
{
    let Some(event) = event else {
        return at;
    };
    match event {
        Event::Refused(number) => print_refused(out, at, number),
        Event::Opened(n) => print_board(out, at, n),
        Event::Step { number, done } => print_step(out, at, number, done),
    }
}

// Bytes of a script, as many as there is room to print for: what they print stands at the front of the output.
pub fn feed(
    table: &mut [u32],
    kept: &mut [u8],
    p: Progress,
    bytes: &[u8],
    out: &mut [u8],
) -> Written
    requires { Ready p table.old kept.old }
    ensures fed_into { FedInto p table.old kept.old bytes.now
        result table.new kept.new out.new }
    ensures out_len_bound { result.taken < length bytes.now → length out.new < result.written + longest_printed }
{
    let mut progress = p;
    let mut taken = 0;
    let mut at = 0;
    // No `for`: each round takes a line's bytes, as many as `take_line` says.
    while taken < bytes.len() && LONGEST_PRINTED <= out.len() - at {
        let line = take_line(table, kept, progress, &bytes[taken..]);
        progress = line.progress;
        taken += line.taken;
        at = print_event(out, at, line.event);
    }
    Written {
        progress,
        taken,
        written: at,
    }
}

// The end of the input, and what it prints.
pub fn finish(table: &mut [u32], kept: &[u8], p: Progress, out: &mut [u8]) -> usize
    requires { (Ready p table.old kept.now) × (longest_printed ≤ length out.old) }
    ensures { Finished p table.old kept.now result out.new }
{
    print_event(out, 0, last_line(table, kept, p))
}
