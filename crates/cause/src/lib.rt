// The step that cost an operation: a script's bytes and an operation in; out comes the first step of another member without which the host
// would have accepted the operation, or none, or a refusal.
#![tactic(auto)]

ghost use Rattle.std.specs.Prelude.{◌≡◌};
ghost use Rattle.model.specs.Cause.{cause};
ghost use Rattle.cause.specs.Meaning.{told_cause};

mod lines;
pub mod steps;

use rules::Refusal;
use script_run::MOST_WORDS;
use steps::find_on;

// A script with more lines behind the first is refused before any of them is read.
pub const MOST_LINES: usize = 256;

// No line that is printed is longer.
pub const LONGEST_ANSWER: usize = 11;

// The first step of another member that cost the member the operation which is its ordinal-th, from 1, among its begins that the board
// answered 0; none where no step of another member did.
pub fn find_cause(script: &[u8], member: u32, ordinal: u32) -> Result<Option<u32>, Refusal>
    ensures { told_cause result ≡ cause script.now member ordinal }
{
    let mut table = [0; MOST_WORDS];
    find_on(script, &mut table, member, ordinal)
}
