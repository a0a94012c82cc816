// Deliver, by phase: the parts of the table that the halves are lent, and what passes between them.
ghost use Rattle.std.specs.Prelude.{◌≡◌};
ghost use Rattle.model.specs.Board.{submit_taken, reply_taken, commit_taken, outcome_taken};
ghost use Rattle.model.specs.Member.{returned_by};
ghost use Rattle.model.specs.Table.{board_by};
ghost use Rattle.member_block.specs.Results.{returned_in};
ghost use Rattle.table_calls.specs.Needs.{Turn};
ghost use Rattle.tables.specs.Needs.{Left};

use host::steps::{commit, host_size, submit};
use member_block::steps::{answer, block_size, commit_of, finish, judge, reply_noted, submit_of};
use tables::steps::{block_at, host_at};

// Phase 1: the host takes the submit, and the member notes the reply.
pub fn submit_taken(table: &mut [u32], n: usize, member: u32)
    requires { Turn n member table.old }
    ensures { Left n (submit_taken (board_by n table.old) member) table.new }
{
    let at = block_at(n, member as usize);
    let end = at + block_size(n);
    let host = host_at(n);
    let last = host + host_size(n);
    let sent = submit_of(&table[at..end], n);
    let reply = submit(&mut table[host..last], n, member, sent.slot, sent.count);
    answer(&mut table[at..end], n, reply.newest, reply.stored);
}

// Phase 2: the member makes its checks on the reply.
pub fn reply_taken(table: &mut [u32], n: usize, member: u32)
    requires { Turn n member table.old }
    ensures { Left n (reply_taken n (board_by n table.old) member) table.new }
{
    let at = block_at(n, member as usize);
    let end = at + block_size(n);
    reply_noted(&mut table[at..end], n, member);
}

// Phase 3: the host takes the commit, and the member notes the verdict.
pub fn commit_taken(table: &mut [u32], n: usize, member: u32)
    requires { Turn n member table.old }
    ensures { Left n (commit_taken (board_by n table.old) member) table.new }
{
    let at = block_at(n, member as usize);
    let end = at + block_size(n);
    let host = host_at(n);
    let last = host + host_size(n);
    let sent = commit_of(&table[at..end], n, member);
    let won = commit(&mut table[host..last], n, sent);
    judge(&mut table[at..end], n, won);
}

// Phases 4 and 5: the member takes the outcome.
pub fn outcome_taken(table: &mut [u32], n: usize, member: u32, accepted: bool) -> Option<[u32; 8]>
    requires { Turn n member table.old }
    ensures taken { returned_in result ≡ returned_by ((board_by n table.old).members member) accepted }
    ensures left { Left n (outcome_taken (board_by n table.old) member accepted) table.new }
{
    let at = block_at(n, member as usize);
    let end = at + block_size(n);
    finish(&mut table[at..end], n, accepted)
}
