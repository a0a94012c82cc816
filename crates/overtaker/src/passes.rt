// The lines of a script behind the first, run as steps: one pass over them.
ghost use Rattle.std.specs.Prelude.{◌≡◌, ◌≤◌, length, unwrap_or};
ghost use Rattle.lists.specs.Functions.{Within};
ghost use Rattle.model.specs.Cause.{without};
ghost use Rattle.model.specs.Overtaker.{most_bytes, lines_overtaker};
ghost use Rattle.model.specs.Table.{table_size};
ghost use Rattle.script_run.specs.Meaning.{Whole};
ghost use Rattle.overtaker_search.specs.Meaning.{told_overtaker};
ghost use Rattle.overtaker_search.specs.Search.{search_start, lines_searched};
ghost use Rattle.overtaker.specs.Lines.{lines_left};

use crate::lines::Lines;
use crate::{Asked, Overtaker};
use board::open;
use overtaker_search::steps::Search;
use rules::Refusal;
use script_run::steps::run_line;

// Each line but that of the number `skip`, from 1, run on the table that the one before left: the first of another form is refused, else
// what is remembered in the end.
pub fn search_lines(
    table: &mut [u32],
    lines: Lines,
    skip: Option<u32>,
    asked: Asked,
) -> Result<Overtaker, Refusal>
    requires { (Whole table.old) × (length (lines_left lines) ≤ most_bytes) }
    ensures { told_overtaker result ≡ lines_searched asked.member asked.ordinal table.old search_start
        (without (unwrap_or skip 0) (lines_left lines.entry)) }
{
    let mut search = Search::start();
    for (passed, line) in lines.enumerate() {
        if skip.is_some_and(|number| number == passed as u32 + 1) {
            continue;
        }
        let done = run_line(table, line).ok_or(Refusal::Line)?;
        search = search.step(done, asked.member, asked.ordinal);
    }
    // From the start on, a pass has no other number.
    search.answer().map_err(|_| Refusal::NotOvertaken)
}

// The same on a board of n members that is opened in the table.
pub fn search_board(
    table: &mut [u32],
    n: u32,
    lines: Lines,
    skip: Option<u32>,
    asked: Asked,
) -> Result<Overtaker, Refusal>
    requires { (Within 12 n) × ((length table.old ≡ table_size n) × (length (lines_left lines) ≤ most_bytes)) }
    ensures { told_overtaker result ≡ lines_overtaker n (without (unwrap_or skip 0) (lines_left lines.entry)) asked.member asked.ordinal }
{
    open(table, n).unwrap();
    search_lines(table, lines, skip, asked)
}
