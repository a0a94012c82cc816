// Where the parts of a member's block lie: document 01's layout, in one place.
ghost use Rattle.std.specs.Prelude.{◌≤◌};
ghost use Rattle.member_block.specs.Layout.{LayoutOf};

use records::steps::record_size;

pub const PHASE_AT: usize = 0;

pub const CRASHED_AT: usize = 1;

pub const HALT_AT: usize = 2;

pub const SLOT_AT: usize = 3;

pub const OPERATION_AT: usize = 4;

pub const OWN_AT: usize = 5;

#[derive(Clone, Copy)]
pub struct Places {
    pub accepted: usize,
    pub last: usize,
    pub pending: usize,
    pub known: usize,
    pub first: usize,
    pub second: usize,
    pub size: usize,
}

pub fn layout(n: usize) -> Places
    requires { n ≤ 12 }
    ensures { LayoutOf n result }
{
    let accepted = OWN_AT + n;
    let last = accepted + n;
    let pending = last + 8;
    let known = pending + 8;
    let first = known + n * n;
    let second = first + record_size(n);
    let size = second + record_size(n);
    Places {
        accepted,
        last,
        pending,
        known,
        first,
        second,
        size,
    }
}
