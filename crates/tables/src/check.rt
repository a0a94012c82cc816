// The table's check, which every call makes on the whole table first: numbers 3, 2, 3.
ghost use Rattle.std.specs.Prelude.{◌≡◌, IfOk};
ghost use Rattle.lists.specs.Functions.{each};
ghost use Rattle.lists.specs.Parts.{words};
ghost use Rattle.model.specs.Table.{board_by, sound_member, sound_host, table_number};
ghost use Rattle.rules.specs.Refusals.{answer};
ghost use Rattle.tables.specs.Needs.{Table, Sound};

use crate::steps::{block_at, host_at, table_size};
use host::steps::{host_size, sound_entries};
use member_block::steps::{block_size, sound_block};
use rules::{MOST_MEMBERS, Refusal, is_numbered};

// The n member blocks.
fn sound_blocks(table: &[u32], n: u32) -> bool
    requires { Table n table.now }
    ensures { result ≡ each n (λ i. sound_member n i ((board_by n table.now).members i)) }
{
    let size = block_size(n as usize);
    for passed in 0..n {
        let at = block_at(n as usize, passed as usize + 1);
        let end = at + size;
        if !sound_block(&table[at..end], n, passed + 1) {
            return false;
        }
    }
    true
}

// The n host entries.
fn sound_host(table: &[u32], n: u32) -> bool
    requires { Table n table.now }
    ensures { result ≡ sound_host n (board_by n table.now).host (board_by n table.now).stored }
{
    let at = host_at(n as usize);
    let end = at + host_size(n as usize);
    sound_entries(&table[at..end], n)
}

// The table's n, where nothing refuses the table.
#[tactic(auto, unfolding(model::specs::Table::table_number, model::specs::Table::sound_board))]
pub fn check_table(table: &[u32]) -> Result<u32, Refusal>
    ensures number_value { answer result ≡ table_number table.now }
    ensures size_value { IfOk result (λ n. n ≡ words table.now 0) }
    ensures sound { IfOk result (λ n. Sound n table.now) }
{
    if table.is_empty() {
        return Err(Refusal::Word);
    }
    let n = table[0];
    if !is_numbered(n, MOST_MEMBERS) {
        return Err(Refusal::Word);
    }
    if table.len() != table_size(n as usize) {
        return Err(Refusal::Length);
    }
    if !sound_blocks(table, n) {
        return Err(Refusal::Word);
    }
    if !sound_host(table, n) {
        return Err(Refusal::Word);
    }
    Ok(n)
}
