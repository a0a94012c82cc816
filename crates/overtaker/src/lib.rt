// Who overtook an operation: a script's bytes and an operation in, the first submit that overtook it or a refusal out.
#![tactic(auto)]

ghost use Rattle.std.specs.Prelude.{◌≡◌};
ghost use Rattle.model.specs.Overtaker.{overtaker, asked_by};
ghost use Rattle.overtaker_search.specs.Meaning.{told_overtaker};
ghost use Rattle.overtaker.specs.Meaning.{held_asked};

mod lines;
mod passes;
pub mod steps;

pub use overtaker_search::Overtaker;
use rules::Refusal;
use script::parse_number;
use script_run::MOST_WORDS;
use steps::find_on;

// The operation that is asked for: the member's ordinal-th, from 1, among its begins that the board answered 0.
#[derive(Clone, Copy, Debug, PartialEq, Eq)]
pub struct Asked {
    pub member: u32,
    pub ordinal: u32,
}

impl Asked {
    // How many arguments there are, and the first two: none where they are not two numbers.
    #[tactic(auto, unfolding(model::specs::Overtaker::asked_by, model::specs::Overtaker::both_numbers))]
    pub fn read(count: usize, first: &[u8], second: &[u8]) -> Option<Asked>
        ensures { result ≡ held_asked (asked_by count first.now second.now) }
    {
        if count != 2 {
            return None;
        }
        let member = parse_number(first)?;
        let ordinal = parse_number(second)?;
        Some(Asked { member, ordinal })
    }
}

// A longer script is refused before any line of it is read.
pub const MOST_BYTES: usize = 65535;

// No line that is printed is longer.
pub const LONGEST_ANSWER: usize = 22;

// Who overtook the operation that is the member's ordinal-th.
pub fn find_overtaker(script: &[u8], member: u32, ordinal: u32) -> Result<Overtaker, Refusal>
    ensures { told_overtaker result ≡ overtaker script.now member ordinal }
{
    let mut table = [0; MOST_WORDS];
    find_on(script, &mut table, member, ordinal)
}
