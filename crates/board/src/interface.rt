// What C calls: include/concur.h. The crate board_c exports these functions under their names. A value stands in a slice of 8 words; what a
// deliver returns is written to one of 9. The answers are numbers, and a value is a slice, since this is the C interface.
ghost use Rattle.std.specs.Prelude.{◌≡◌, length};
ghost use Rattle.lists.specs.Parts.{words};
ghost use Rattle.model.specs.Kinds.{concur, auction};
ghost use Rattle.model.specs.RecordWords.{value_of};
ghost use Rattle.model.specs.Runs.{begin as beginCall, deliver as deliverCall, crash as crashCall};
ghost use Rattle.model.specs.Table.{value_size};
ghost use Rattle.model.specs.TableCalls.{open_number, open_words, table_answer, table_after};
ghost use Rattle.rules.specs.Refusals.{answer};
ghost use Rattle.board.specs.Interface.{words_for, answer_beside, after_beside, returned_size, returned_after};

use crate::kinds::begin_beside;
use crate::steps::hand_returned;
use crate::{auction, crash, open};
use rules::{Kind, MOST_MEMBERS, Refusal, answered, is_numbered};
use table_calls::steps::deliver_on;
use tables::check::check_table;
use tables::steps::table_size;

pub fn concur_board_words(n: u32) -> u32
    ensures { result ≡ words_for n }
{
    if !is_numbered(n, MOST_MEMBERS) {
        return 0;
    }
    table_size(n as usize) as u32
}

pub fn concur_board_open(table: &mut [u32], n: u32) -> u32
    ensures value { result ≡ open_number concur n table.old }
    ensures table_after { table.new ≡ open_words concur n table.old }
{
    answered(open(table, n))
}

pub fn concur_board_begin(
    table: &mut [u32],
    member: u32,
    slot: u32,
    operation: u32,
    value: &[u32],
) -> u32
    ensures value { result
        ≡ answer_beside concur (length value.now) value_size table.old
        (beginCall member slot operation (value_of (words value.now))) }
    ensures table_after { table.new
        ≡ after_beside concur (length value.now) value_size table.old
        (beginCall member slot operation (value_of (words value.now))) }
{
    answered(begin_beside(table, Kind::CONCUR, member, slot, operation, value))
}

pub fn concur_auction_open(table: &mut [u32], n: u32) -> u32
    ensures value { result ≡ open_number auction n table.old }
    ensures table_after { table.new ≡ open_words auction n table.old }
{
    answered(auction::open(table, n))
}

pub fn concur_auction_begin(
    table: &mut [u32],
    member: u32,
    slot: u32,
    operation: u32,
    value: &[u32],
) -> u32
    ensures value { result
        ≡ answer_beside auction (length value.now) value_size table.old
        (beginCall member slot operation (value_of (words value.now))) }
    ensures table_after { table.new
        ≡ after_beside auction (length value.now) value_size table.old
        (beginCall member slot operation (value_of (words value.now))) }
{
    answered(begin_beside(table, Kind::AUCTION, member, slot, operation, value))
}

// A deliver, with the slice for what is returned, whose length is judged before the member.
fn deliver_beside(table: &mut [u32], member: u32, returned: &mut [u32]) -> Result<(), Refusal>
    ensures value { answer result ≡ answer_beside concur (length returned.old) returned_size table.old (deliverCall member) }
    ensures table_after { table.new
        ≡ after_beside concur (length returned.old) returned_size table.old (deliverCall member) }
    ensures returned_after { returned.new ≡ returned_after returned.old table.old (deliverCall member) }
{
    let n = check_table(table)?;
    if returned.len() != 9 {
        return Err(Refusal::Length);
    }
    let value = deliver_on(table, n, member)?;
    hand_returned(returned, value);
    Ok(())
}

pub fn concur_board_deliver(table: &mut [u32], member: u32, returned: &mut [u32]) -> u32
    ensures value { result ≡ answer_beside concur (length returned.old) returned_size table.old (deliverCall member) }
    ensures table_after { table.new
        ≡ after_beside concur (length returned.old) returned_size table.old (deliverCall member) }
    ensures returned_after { returned.new ≡ returned_after returned.old table.old (deliverCall member) }
{
    answered(deliver_beside(table, member, returned))
}

pub fn concur_board_crash(table: &mut [u32], member: u32) -> u32
    ensures value { result ≡ table_answer concur table.old (crashCall member) }
    ensures table_after { table.new ≡ table_after concur table.old (crashCall member) }
{
    answered(crash(table, member))
}
