// The lines of a script, one by one.
ghost use Rattle.std.specs.Prelude.{◌≡◌};
ghost use Rattle.std.specs.Iterator.{YieldsFirstRef, item_count};
ghost use Rattle.model.specs.Overtaker.{well_formed};
ghost use Rattle.model.specs.Script.{lines_of};
ghost use Rattle.overtaker.specs.Lines.{lines_left};

use script::{line_length, parse_line};

// The lines that are left of a script, each without its line feed, which the last may lack.
#[derive(Clone, Copy)]
pub struct Lines<'a> {
    rest: &'a [u8],
}

impl<'a> Lines<'a> {
    pub fn of(script: &'a [u8]) -> Lines<'a>
        ensures { lines_left result ≡ lines_of script.now }
    {
        Lines { rest: script }
    }
}

impl<'a> Iterator for Lines<'a> {
    type Item = &'a [u8];

    ghost next_gives = { YieldsFirstRef lines_left };

    ghost remaining = { item_count lines_left };

    #[tactic(auto, using(crate::proofs::NextLine::next_line, script::proofs::Lines::no_line_lem, script::proofs::Lines::before_within))]
    fn next(&mut self) -> Option<&'a [u8]> {
        if self.rest.is_empty() {
            return None;
        }
        let (line, behind) = self.rest.split_at(line_length(self.rest));
        self.rest = match behind.split_first() {
            Some((_, others)) => others,
            None => behind,
        };
        Some(line)
    }
}

// Have all the form of a step?
pub fn well_formed(mut lines: Lines) -> bool
    ensures { result ≡ well_formed (lines_left lines.entry) }
{
    lines.all(|line| parse_line(line).is_some())
}
