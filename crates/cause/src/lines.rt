// The lines of a script behind the first: the first without which an operation is accepted.
ghost use Rattle.std.specs.Prelude.{◌≡◌, ◌≤◌, length};
ghost use Rattle.std.proofs.Math.Option.{some};
ghost use Rattle.lists.specs.Functions.{Within};
ghost use Rattle.model.specs.Overtaker.{most_bytes, lines_overtaker};
ghost use Rattle.model.specs.Cause.{lines_cause};
ghost use Rattle.model.specs.Table.{table_size};
ghost use Rattle.script.specs.Meaning.{given};
ghost use Rattle.overtaker.specs.Lines.{lines_left};
ghost use Rattle.cause.specs.Meaning.{Named};

use overtaker::Asked;
use overtaker::steps::{Lines, search_board};
use script::parse_line;

// Of lines that are all steps of a board of n members, on which somebody overtook the operation: each of another member is left out in
// turn, and the others are run anew. Where nobody overtakes it then, it is accepted, since its verdict falls all the same.
pub fn search_steps(table: &mut [u32], n: u32, lines: Lines, asked: Asked) -> Option<u32>
    requires within { (Within 12 n) × ((length table.old ≡ table_size n) × (length (lines_left lines) ≤ most_bytes)) }
    requires named { Named (lines_overtaker n (lines_left lines) asked.member asked.ordinal) }
    ensures { given result ≡ lines_cause (some n) (lines_left lines.entry) asked.member asked.ordinal }
{
    for (passed, line) in lines.enumerate() {
        let number = passed as u32 + 1;
        if parse_line(line).is_some_and(|step| step.member() == asked.member) {
            continue;
        }
        if search_board(table, n, lines, Some(number), asked).is_err() {
            return Some(number);
        }
    }
    None
}
