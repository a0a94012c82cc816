// The archive for C gateways: include/concur.h. Each export is the function of its name in board::interface.
#![tactic(auto)]

ghost use Rattle.std.specs.Prelude.{◌≡◌, length};
ghost use Rattle.lists.specs.Parts.{words};
ghost use Rattle.model.specs.Kinds.{concur, auction};
ghost use Rattle.model.specs.RecordWords.{value_of};
ghost use Rattle.model.specs.Runs.{begin as beginCall, deliver as deliverCall, crash as crashCall};
ghost use Rattle.model.specs.Table.{value_size};
ghost use Rattle.model.specs.TableCalls.{open_number, open_words, table_answer, table_after};
ghost use Rattle.board.specs.Interface.{words_for, answer_beside, after_beside, returned_size, returned_after};

use board::interface;

#[unsafe(no_mangle)]
pub extern "C" fn concur_board_words(n: u32) -> u32
    ensures { result ≡ words_for n }
{
    interface::concur_board_words(n)
}

#[unsafe(no_mangle)]
pub extern "C" fn concur_board_open(table: &mut [u32], n: u32) -> u32
    ensures value { result ≡ open_number concur n table.old }
    ensures table_after { table.new ≡ open_words concur n table.old }
{
    interface::concur_board_open(table, n)
}

#[unsafe(no_mangle)]
pub extern "C" fn concur_board_begin(
    table: &mut [u32],
    member: u32,
    slot: u32,
    operation: u32,
    value: &[u32],
) -> u32
    ensures value { result
        ≡ answer_beside concur (length value.now) value_size table.old
        (beginCall member slot operation (value_of (words value.now))) }
    ensures table_after { table.new
        ≡ after_beside concur (length value.now) value_size table.old
        (beginCall member slot operation (value_of (words value.now))) }
{
    interface::concur_board_begin(table, member, slot, operation, value)
}

#[unsafe(no_mangle)]
pub extern "C" fn concur_auction_open(table: &mut [u32], n: u32) -> u32
    ensures value { result ≡ open_number auction n table.old }
    ensures table_after { table.new ≡ open_words auction n table.old }
{
    interface::concur_auction_open(table, n)
}

#[unsafe(no_mangle)]
pub extern "C" fn concur_auction_begin(
    table: &mut [u32],
    member: u32,
    slot: u32,
    operation: u32,
    value: &[u32],
) -> u32
    ensures value { result
        ≡ answer_beside auction (length value.now) value_size table.old
        (beginCall member slot operation (value_of (words value.now))) }
    ensures table_after { table.new
        ≡ after_beside auction (length value.now) value_size table.old
        (beginCall member slot operation (value_of (words value.now))) }
{
    interface::concur_auction_begin(table, member, slot, operation, value)
}

#[unsafe(no_mangle)]
pub extern "C" fn concur_board_deliver(table: &mut [u32], member: u32, returned: &mut [u32]) -> u32
    ensures value { result ≡ answer_beside concur (length returned.old) returned_size table.old (deliverCall member) }
    ensures table_after { table.new
        ≡ after_beside concur (length returned.old) returned_size table.old (deliverCall member) }
    ensures returned_after { returned.new ≡ returned_after returned.old table.old (deliverCall member) }
{
    interface::concur_board_deliver(table, member, returned)
}

#[unsafe(no_mangle)]
pub extern "C" fn concur_board_crash(table: &mut [u32], member: u32) -> u32
    ensures value { result ≡ table_answer concur table.old (crashCall member) }
    ensures table_after { table.new ≡ table_after concur table.old (crashCall member) }
{
    interface::concur_board_crash(table, member)
}
