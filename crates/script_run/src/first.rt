// The first line of a script: it opens the board, or the script is over.
ghost use Rattle.std.specs.Prelude.{◌≡◌, List, ℕ, IfOk};
ghost use Rattle.lists.specs.Functions.{Within};
ghost use Rattle.model.specs.Kinds.{concur};
ghost use Rattle.model.specs.Script.{first_of};
ghost use Rattle.script_run.specs.Feeding.{first_run};
ghost use Rattle.script_run.specs.Meaning.{Ready, Ran, first_line, first_ended};

use crate::{Ended, Event, MOST_STEPS, Progress};
use board::open;
use rules::{MOST_MEMBERS, Refusal, is_numbered};
use script::parse_members;
use tables::steps::table_size;

// The members of the board that the first line opens.
fn members_of(line: &[u8]) -> Result<u32, Refusal>
    ensures ends { (table : List ℕ) → first_run concur table (first_of line.now) ≡ first_ended table result }
    ensures within { IfOk result (Within 12) }
{
    let Some(n) = parse_members(line) else {
        return Err(Refusal::Line);
    };
    if !is_numbered(n, MOST_MEMBERS) {
        return Err(Refusal::Size);
    }
    Ok(n)
}

pub fn run_first(table: &mut [u32], kept: &[u8], p: Progress) -> Ended
    requires { Ready p table.old kept.now }
    ensures { Ran (first_line p table.old kept.now) result table.new kept.now }
{
    let count = p.kept;
    match members_of(&kept[..count]) {
        Err(refusal) => Ended {
            progress: Progress {
                step: MOST_STEPS + 1,
                size: p.size,
                kept: 0,
            },
            event: Event::Refused(refusal.number()),
        },
        Ok(n) => {
            let size = table_size(n as usize);
            open(&mut table[..size], n).unwrap();
            Ended {
                progress: Progress {
                    step: 1,
                    size,
                    kept: 0,
                },
                event: Event::Opened(n),
            }
        }
    }
}
