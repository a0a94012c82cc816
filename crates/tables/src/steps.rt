// A table of words: where its parts lie, a phase in it, and its opening. Each function asks for what its callers have checked.
ghost use Rattle.std.specs.Prelude.{◌≡◌, ◌≤◌, length};
ghost use Rattle.model.specs.Board.{opened};
ghost use Rattle.model.specs.Table.{table_size};
ghost use Rattle.model.specs.TableCalls.{phase_words};
ghost use Rattle.lists.specs.Functions.{Within};
ghost use Rattle.tables.specs.Needs.{Table, Left, BlockPlace, HostPlace};

use host::steps::{host_size, open};
use member_block::steps::block_size;
use records::steps::clear;

const BLOCKS_AT: usize = 1;

// Where a member's block begins: n stands before the blocks, the host entries behind them.
pub fn block_at(n: usize, member: usize) -> usize
    requires { (n ≤ 12) × ((1 ≤ member) × (member ≤ n)) }
    ensures { BlockPlace n member result }
{
    BLOCKS_AT + (member - 1) * block_size(n)
}

// Where the host entries begin.
pub fn host_at(n: usize) -> usize
    requires { n ≤ 12 }
    ensures { HostPlace n result }
{
    BLOCKS_AT + n * block_size(n)
}

// How many words the table of a board of n has.
pub fn table_size(n: usize) -> usize
    requires { n ≤ 12 }
    ensures { (result ≡ table_size n) × (result ≤ 9781) }
{
    host_at(n) + host_size(n)
}

// A member's phase.
pub fn phase(table: &[u32], n: u32, member: u32) -> u32
    requires { (Table n table.now) × (Within n member) }
    ensures { result ≡ phase_words table.now member }
{
    let at = block_at(n as usize, member as usize);
    table[at]
}

// Opening: every word zero but n and the host's opening records.
pub fn open_all(table: &mut [u32], n: u32)
    requires { (1 ≤ n) × ((n ≤ 12) × (length table.old ≡ table_size n)) }
    ensures { Left n (opened n) table.new }
{
    let host = host_at(n as usize);
    let last = host + host_size(n as usize);
    clear(table, 0, host);
    table[0] = n;
    open(&mut table[host..last], n);
}
