// What one pass over a script's steps remembers of the operation asked for.
ghost use Rattle.std.specs.Prelude.{◌≡◌, ◌≤◌, ◌<◌, Some};
ghost use Rattle.lists.specs.Functions.{Within};
ghost use Rattle.model.specs.Runs.{Call, Seen};
ghost use Rattle.script.specs.Meaning.{line_member};
ghost use Rattle.script_run.specs.Meaning.{Shows, Made};
ghost use Rattle.overtaker_search.specs.Search.{search_of, search_start, search_begin, search_submit, search_verdict};
ghost use Rattle.overtaker_search.specs.Search.{search_call, search_step, search_answer, told_first};

use crate::Overtaker;
use rules::Refusal;
use script::Line;
use script_run::Done;

// The steps so far, and the slot of the operation that each member began last. Of the operation asked for: how many its member has begun,
// whether its submit was taken and its commit was not, its slot, and the first submit on that slot since, or 31. `follows` and `slot` stand
// apart as in the definition `Search`, of which the theorem `lines_answered` speaks; and `first` has a number and no `Refusal`, since
// `answer` tells it whatever it is.
#[derive(Clone, Copy)]
pub struct Search {
    pub steps: u32,
    pub slots: [u32; 12],
    pub begun: u32,
    pub follows: bool,
    pub slot: u32,
    pub first: Result<Overtaker, u32>,
}

impl Search {
    pub fn start() -> Search
        ensures { search_of result ≡ search_start }
    {
        Search {
            steps: 0,
            slots: [0; 12],
            begun: 0,
            follows: false,
            slot: 0,
            first: Err(Refusal::NotOvertaken.number()),
        }
    }

    // A begin of `by` on a slot was answered 0.
    #[tactic(auto, unfolding(crate::specs::Search::search_begin), using(lists::proofs::Numbered::number_stored))]
    fn begin(mut self, member: u32, by: u32, slot: u32) -> Search
        requires { (self.begun < 65536) × (Within 12 by) }
        ensures { search_of result ≡ search_begin member (search_of self) by slot }
    {
        self.slots[by as usize - 1] = slot;
        if by == member {
            self.begun += 1;
        }
        self
    }

    // The host took a submit of `by`.
    #[tactic(auto, unfolding(crate::specs::Search::search_submit), using(lists::proofs::Numbered::number_read))]
    fn submit(mut self, member: u32, ordinal: u32, by: u32) -> Search
        requires { Within 12 by }
        ensures { search_of result ≡ search_submit member ordinal (search_of self) by }
    {
        let slot = self.slots[by as usize - 1];
        if by == member {
            self.follows = self.begun == ordinal;
            self.slot = slot;
        } else if self.follows && slot == self.slot && self.first.is_err() {
            self.first = Ok(Overtaker {
                member: by,
                step: self.steps,
            });
        }
        self
    }

    // The host judged an operation of `by`.
    #[tactic(auto, unfolding(crate::specs::Search::search_verdict))]
    fn judge(mut self, member: u32, by: u32, accepted: bool) -> Search
        ensures { search_of result ≡ search_verdict member (search_of self) by accepted }
    {
        if by == member && self.follows {
            self.follows = false;
            if accepted {
                self.first = Err(Refusal::NotOvertaken.number());
            }
        }
        self
    }

    // A step that made a call and was answered 0.
    #[tactic(auto, unfolding(crate::specs::Search::search_call, crate::specs::Search::search_deliver))]
    fn call(self, done: Done, member: u32, ordinal: u32) -> Search
        requires { (self.begun < 65536) × (Within 12 (line_member done.line)) }
        ensures { (call : Call) (s : Seen) → Shows done call s
            → search_of result ≡ search_call member ordinal (search_of self) call s }
    {
        let by = done.line.member();
        match done.line {
            Line::Write { .. } => self.begin(member, by, by),
            Line::Read { slot, .. } => self.begin(member, by, slot),
            // A phase is a word of the table.
            Line::Deliver { .. } => match done.phase {
                2 => self.submit(member, ordinal, by),
                4 => self.judge(member, by, true),
                5 => self.judge(member, by, false),
                _ => self,
            },
            Line::Crash { .. } => self,
        }
    }

    // A step that made a call. The member and the ordinal stand apart as in `search_step`: `Asked` is of the crate above, with its reading.
    #[tactic(auto, unfolding(crate::specs::Search::search_step))]
    pub fn step(mut self, done: Done, member: u32, ordinal: u32) -> Search
        requires { (self.begun ≤ self.steps) × ((self.steps < 65536) × (Made (Some done))) }
        ensures { (call : Call) (s : Seen) → Shows done call s
            → search_of result ≡ search_step member ordinal (search_of self) call s }
    {
        self.steps += 1;
        if done.answer() != 0 {
            return self;
        }
        self.call(done, member, ordinal)
    }

    // Nobody is named before the verdict, and where it was accepted.
    #[tactic(auto, unfolding(crate::specs::Search::search_answer))]
    pub fn answer(self) -> Result<Overtaker, u32>
        ensures { told_first result ≡ search_answer (search_of self) }
    {
        if self.follows {
            return Err(Refusal::NotOvertaken.number());
        }
        self.first
    }
}
