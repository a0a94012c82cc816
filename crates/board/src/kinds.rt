// Opening and begin on a board of a kind.
ghost use Rattle.std.specs.Prelude.{◌≤◌, ◌≡◌, IfOk, length};
ghost use Rattle.lists.specs.Parts.{words};
ghost use Rattle.model.specs.Kinds.{Kind as BoardKind, most_members};
ghost use Rattle.model.specs.RecordWords.{value_of};
ghost use Rattle.model.specs.Runs.{begin as beginCall};
ghost use Rattle.model.specs.Table.{value_size};
ghost use Rattle.model.specs.TableCalls.{open_number, open_words, begin_number};
ghost use Rattle.rules.specs.Refusals.{answer};
ghost use Rattle.tables.specs.Needs.{Sound};
ghost use Rattle.board.specs.Calls.{OnTable};
ghost use Rattle.board.specs.Interface.{Beside};

use records::steps::load_value;
use rules::{Kind, Refusal, check_size, is_numbered};
use table_calls::steps::begin_on;
use tables::check::check_table;
use tables::steps::{open_all, table_size};

// Opening.
pub fn open_by(table: &mut [u32], kind: Kind, n: u32) -> Result<(), Refusal>
    requires { kind.most ≤ most_members }
    ensures { (k : BoardKind) → kind.most ≡ k.most
        → (answer result ≡ open_number k n table.old) × (table.new ≡ open_words k n table.old) }
{
    if !is_numbered(n, kind.most) {
        return Err(Refusal::Size);
    }
    if table.len() != table_size(n as usize) {
        return Err(Refusal::Length);
    }
    open_all(table, n);
    Ok(())
}

// What refuses a begin whatever its arguments: the table's numbers, then the kind's. The table's n, where none does.
fn check_kind(table: &[u32], kind: Kind) -> Result<u32, Refusal>
    ensures number_value { (k : BoardKind) → kind.most ≡ k.most → answer result ≡ begin_number k table.now }
    ensures sound { IfOk result (λ n. Sound n table.now) }
{
    let n = check_table(table)?;
    check_size(kind, n)?;
    Ok(n)
}

// Begin: what refuses it whatever its arguments, then the numbers from 4 on, then the step.
pub fn begin_by(
    table: &mut [u32],
    kind: Kind,
    member: u32,
    slot: u32,
    operation: u32,
    value: [u32; 8],
) -> Result<(), Refusal>
    ensures { (k : BoardKind) → kind.limit ≡ k.limit → kind.most ≡ k.most
        → OnTable k table.old (beginCall member slot operation (value_of (words value))) (answer result) table.new }
{
    let n = check_kind(table, kind)?;
    begin_on(table, kind, n, member, slot, operation, value)
}

// The same with the value in a slice, whose length is judged in between. Always inlined: both boards' begins call it, at a small n for as
// long as the begin itself takes.
#[inline(always)]
pub fn begin_beside(
    table: &mut [u32],
    kind: Kind,
    member: u32,
    slot: u32,
    operation: u32,
    value: &[u32],
) -> Result<(), Refusal>
    ensures { (k : BoardKind) → kind.limit ≡ k.limit → kind.most ≡ k.most
        → Beside k (length value.now) value_size table.old
        (beginCall member slot operation (value_of (words value.now))) (answer result) table.new }
{
    let n = check_kind(table, kind)?;
    if value.len() != 8 {
        return Err(Refusal::Length);
    }
    begin_on(
        table,
        kind,
        n,
        member,
        slot,
        operation,
        load_value(value, 0),
    )
}
