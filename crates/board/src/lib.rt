// The board: n members and the host in one table of words. Each call checks the whole table, then its arguments, then makes its step; a
// call that is refused changes nothing. A type is handed in as a number, here and in the crates below: number 6 refuses any other one.
#![tactic(auto)]

ghost use Rattle.std.specs.Prelude.{◌≡◌};
ghost use Rattle.lists.specs.Parts.{words};
ghost use Rattle.model.specs.Kinds.{concur};
ghost use Rattle.model.specs.RecordWords.{value_of};
ghost use Rattle.model.specs.Runs.{begin as beginCall, deliver as deliverCall, crash as crashCall};
ghost use Rattle.model.specs.TableCalls.{open_number, open_words, board_in, table_answer, table_after, table_returns, table_board};
ghost use Rattle.rules.specs.Refusals.{answer};
ghost use Rattle.member_block.specs.Results.{returned_of};

pub mod auction;
pub mod interface;
mod kinds;
pub mod steps;

use kinds::{begin_by, open_by};
use rules::{Kind, Refusal};
use table_calls::steps::{crash_on, deliver_on};
use tables::check::check_table;

// Opening, on a table whose old words are not looked at.
pub fn open(table: &mut [u32], n: u32) -> Result<(), Refusal>
    ensures value { answer result ≡ open_number concur n table.old }
    ensures table_after { table.new ≡ open_words concur n table.old }
{
    open_by(table, Kind::CONCUR, n)
}

// A member begins an operation on a slot: 1 a read, 2 a write of the value.
pub fn begin(
    table: &mut [u32],
    member: u32,
    slot: u32,
    operation: u32,
    value: [u32; 8],
) -> Result<(), Refusal>
    ensures value { answer result ≡ table_answer concur table.old (beginCall member slot operation (value_of (words value))) }
    ensures table_after { table.new
        ≡ table_after concur table.old (beginCall member slot operation (value_of (words value))) }
    ensures table_after_2 { board_in table.new
        ≡ table_board concur table.old (beginCall member slot operation (value_of (words value))) }
{
    begin_by(table, Kind::CONCUR, member, slot, operation, value)
}

// The next message to or from a member is delivered; an accepted read returns its value at the last of the four.
pub fn deliver(table: &mut [u32], member: u32) -> Result<Option<[u32; 8]>, Refusal>
    ensures number_value { answer result ≡ table_answer concur table.old (deliverCall member) }
    ensures result_value { returned_of result ≡ table_returns concur table.old (deliverCall member) }
    ensures table_after { table.new ≡ table_after concur table.old (deliverCall member) }
    ensures table_after_2 { board_in table.new ≡ table_board concur table.old (deliverCall member) }
{
    let n = check_table(table)?;
    deliver_on(table, n, member)
}

// A member crashes: nothing more is delivered to it.
pub fn crash(table: &mut [u32], member: u32) -> Result<(), Refusal>
    ensures value { answer result ≡ table_answer concur table.old (crashCall member) }
    ensures table_after { table.new ≡ table_after concur table.old (crashCall member) }
    ensures table_after_2 { board_in table.new ≡ table_board concur table.old (crashCall member) }
{
    let n = check_table(table)?;
    crash_on(table, n, member)
}
