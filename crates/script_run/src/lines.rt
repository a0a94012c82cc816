// Lines run on a table: what each did, by value.
ghost use Rattle.std.specs.Prelude.{◌≡◌, ◌≤◌, ◌||◌, eqb, ltb, length, take};
ghost use Rattle.model.specs.Kinds.{concur};
ghost use Rattle.model.specs.Script.{step_line, most_steps};
ghost use Rattle.script_run.specs.Feeding.{most_kept, keep, line_run};
ghost use Rattle.script_run.specs.Meaning.{StepHeld, Made, Whole, state_of, Ready, Ran};

use crate::calls::{make_call, outcome_parts, phase_of};
use crate::first::run_first;
use crate::{Done, Ended, Event, MOST_KEPT, Progress};
use script::parse_line;

// A line that is a step: what it does to the table, and what is seen of it; none where it is malformed and makes no call.
pub fn run_line(table: &mut [u32], line: &[u8]) -> Option<Done>
    requires { Whole table.old }
    ensures table_after { table.new ≡ (step_line concur table.old line.now).table }
    ensures step_held { StepHeld result (step_line concur table.old line.now).happened }
    ensures made { Made result }
{
    let line = parse_line(line)?;
    let member = line.member();
    let outcome = make_call(table, line);
    let (answer, returned) = outcome_parts(outcome);
    let phase = phase_of(table, member);
    Some(Done {
        line,
        answer,
        returned,
        phase,
    })
}

// The line that was kept is at its end.
pub fn end_line(table: &mut [u32], kept: &[u8], p: Progress) -> Ended
    requires { (Ready p table.old kept.now) × (p.step ≤ most_steps) }
    ensures { Ran (line_run concur (state_of p table.old kept.now)) result table.new kept.now }
{
    let step = p.step;
    let size = p.size;
    let count = p.kept;
    if step == 0 {
        return run_first(table, kept, p);
    }
    let done = run_line(&mut table[..size], &kept[..count]);
    Ended {
        progress: Progress {
            step: step + 1,
            size,
            kept: 0,
        },
        event: Event::Step { number: step, done },
    }
}

// One byte more of a line, of which the first are kept.
#[tactic(auto, using(crate::proofs::States::keep_full, crate::proofs::States::keep_more))]
pub fn keep_byte(kept: &mut [u8], count: usize, b: u8) -> usize
    requires { (length kept.old ≡ most_kept) × (count ≤ most_kept) }
    ensures { (result ≤ most_kept) × (take result kept.new ≡ keep (take count kept.old) b) }
{
    if count == MOST_KEPT {
        return count;
    }
    kept[count] = b;
    count + 1
}

// Is there a line to end? The first is one even if it is empty.
pub fn begun(step: u32, count: usize) -> bool
    ensures { result ≡ (eqb step 0 || ltb 0 count) }
{
    step == 0 || 0 < count
}
