// The board program's lines, run on a table: what each did by value, and a script that comes in pieces. What is printed is made of that.
#![tactic(auto)]

ghost use Rattle.std.specs.Prelude.{List, [], ◌∷◌, ◌≡◌, ℕ};
ghost use Rattle.script_run.specs.Feeding.{over};
ghost use Rattle.script_run.specs.Meaning.{state_of};

use script::{LONGEST_LINE, Line};

mod calls;
mod first;
mod lines;
pub mod steps;

// How far a script has come: the number of the next line, the size of the table once it is opened, and how many bytes of the line are kept.
// Line 0 is the first; above 1,000,000 the script is over: a number, as `State` of the definitions counts the lines too.
#[derive(Clone, Copy)]
pub struct Progress {
    pub step: u32,
    pub size: usize,
    pub kept: usize,
}

impl Progress {
    pub const START: Progress = Progress {
        step: 0,
        size: 0,
        kept: 0,
    };

    pub const OVER: Progress = Progress {
        step: MOST_STEPS + 1,
        size: 0,
        kept: 0,
    };

    // Is the script over, so that nothing more of it is looked at?
    #[tactic(auto, unfolding(crate::specs::Meaning::state_of))]
    pub fn is_over(self) -> bool
        ensures { (table kept : List ℕ) → result ≡ over (state_of self table kept) }
    {
        MOST_STEPS < self.step
    }
}

// What the call of a step's line did: the line, what it answered by number, 0 where it was done, the value returned, if there is one, and
// the member's phase after it. A number and no `Refusal`: a step is printed and billed whatever it answers, and whatever it returns beside.
#[derive(Clone, Copy)]
pub struct Done {
    pub line: Line,
    pub answer: u32,
    pub returned: Option<[u32; 8]>,
    pub phase: u32,
}

impl Done {
    // What the call answered.
    pub fn answer(self) -> u32
        ensures { result ≡ self.answer }
    {
        self.answer
    }
}

// What happened where a line ended.
#[derive(Clone, Copy)]
pub enum Event {
    // The first line was refused with that number.
    Refused(u32),
    // A board of so many members was opened.
    Opened(u32),
    // The line of that number was a step: what its call did, and none where it is malformed and makes no call, which is answered 17.
    Step { number: u32, done: Option<Done> },
}

// A line that was ended: how far the script has come, and what happened.
#[derive(Clone, Copy)]
pub struct Ended {
    pub progress: Progress,
    pub event: Event,
}

// What feeding some bytes did: how far the script has come, how many bytes were taken, and what happened, if a line ended.
#[derive(Clone, Copy)]
pub struct Fed {
    pub progress: Progress,
    pub taken: usize,
    pub event: Option<Event>,
}

// The same of bytes whose events were printed: how many bytes were written.
#[derive(Clone, Copy)]
pub struct Written {
    pub progress: Progress,
    pub taken: usize,
    pub written: usize,
}

pub const MOST_STEPS: u32 = 1000000;

// A table of 12 members.
pub const MOST_WORDS: usize = 9781;

pub const MOST_KEPT: usize = LONGEST_LINE + 1;
