// Auction boards: their opening and their begin. Deliver and crash are the common ones. Beside the common board's and not one call for
// every kind, which would be no plainer: each call's contract names its board.
ghost use Rattle.std.specs.Prelude.{◌≡◌};
ghost use Rattle.lists.specs.Parts.{words};
ghost use Rattle.model.specs.Kinds.{auction};
ghost use Rattle.model.specs.RecordWords.{value_of};
ghost use Rattle.model.specs.Runs.{begin as beginCall};
ghost use Rattle.model.specs.TableCalls.{open_number, open_words, board_in, table_answer, table_after, table_board};
ghost use Rattle.rules.specs.Refusals.{answer};

use crate::kinds::{begin_by, open_by};
use rules::{Kind, Refusal};

pub fn open(table: &mut [u32], n: u32) -> Result<(), Refusal>
    ensures value { answer result ≡ open_number auction n table.old }
    ensures table_after { table.new ≡ open_words auction n table.old }
{
    open_by(table, Kind::AUCTION, n)
}

pub fn begin(
    table: &mut [u32],
    member: u32,
    slot: u32,
    operation: u32,
    value: [u32; 8],
) -> Result<(), Refusal>
    ensures value { answer result ≡ table_answer auction table.old (beginCall member slot operation (value_of (words value))) }
    ensures table_after { table.new
        ≡ table_after auction table.old (beginCall member slot operation (value_of (words value))) }
    ensures table_after_2 { board_in table.new
        ≡ table_board auction table.old (beginCall member slot operation (value_of (words value))) }
{
    begin_by(table, Kind::AUCTION, member, slot, operation, value)
}
