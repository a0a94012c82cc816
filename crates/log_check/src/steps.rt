// The rows of a log, in one pass: each beside what is remembered of those above it.
ghost use Rattle.std.specs.Prelude.{◌≤◌, ◌*◌};
ghost use Rattle.lists.specs.Functions.{from};
ghost use Rattle.lists.specs.Parts.{words};
ghost use Rattle.model.specs.Kinds.{most_members};
ghost use Rattle.logs.specs.Log.{row_size, row_of, rows_of, log_of, RowHolds, LogHolds, Says};
ghost use Rattle.log_check.specs.Remembered.{Reading};

use crate::rows::{
    ACCEPTANCE, BEGIN, END, SIZE, VALUE, barred_until, fields_hold, positions_hold, read_holds,
    written_after,
};

// Does row k hold, counted from 0, below those before it? `last` is the acceptance of the row above; `until` is by member, `written` by
// slot, so that they are no one array of structs.
fn row_holds(
    log: &[u32],
    n: u32,
    k: usize,
    last: u32,
    until: &[u32; 12],
    written: &[usize; 12],
) -> bool
    requires { Reading log.now n k last until.now written.now }
    ensures { let w = words log.now in Says (RowHolds n (row_of (from w (k * row_size))) (rows_of w k)) result }
{
    let at = k * SIZE;
    let member = log[at];
    let operation = log[at + 1];
    let slot = log[at + 2];
    if !fields_hold(n, member, operation, slot) {
        return false;
    }
    let begin = log[at + BEGIN];
    let acceptance = log[at + ACCEPTANCE];
    let end = log[at + END];
    let bar = until[member as usize - 1];
    let before = written[slot as usize - 1];
    positions_hold(bar, last, begin, acceptance, end)
        && read_holds(log, operation, end, at + VALUE, before)
}

// Does each row of a log hold?
pub fn rows_hold(log: &[u32], n: u32) -> bool
    requires { n ≤ most_members }
    ensures { Says (LogHolds n (log_of log.now)) result }
{
    let mut until = [0; 12];
    let mut written = [0; 12];
    let mut last = 0;
    for k in 0..log.len() / SIZE {
        if !row_holds(log, n, k, last, &until, &written) {
            return false;
        }
        let at = k * SIZE;
        let operation = log[at + 1];
        let end = log[at + END];
        let m = log[at] as usize - 1;
        let s = log[at + 2] as usize - 1;
        until[m] = barred_until(end);
        let before = written[s];
        written[s] = written_after(operation, at + VALUE, before);
        last = log[at + ACCEPTANCE];
    }
    true
}
