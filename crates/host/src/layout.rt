// Where the parts of a host entry lie: document 01's layout, in one place.
ghost use Rattle.std.specs.Prelude.{◌≡◌, ◌≤◌};
ghost use Rattle.model.specs.Table.{entry_size, newest_at};
ghost use Rattle.host.specs.Needs.{EntryPlace};

use records::steps::record_size;

pub const SUBMIT_MEMBER_AT: usize = 0;

pub const SUBMIT_COUNT_AT: usize = 1;

pub const STORED_AT: usize = 2;

pub fn newest_at(n: usize) -> usize
    requires { n ≤ 12 }
    ensures { result ≡ newest_at n }
{
    STORED_AT + record_size(n)
}

pub fn entry_size(n: usize) -> usize
    requires { n ≤ 12 }
    ensures { result ≡ entry_size n }
{
    newest_at(n) + record_size(n)
}

// Where the slot's entry begins in the run of entries.
pub fn entry_place(n: usize, slot: usize) -> usize
    requires { (n ≤ 12) × ((1 ≤ slot) × (slot ≤ n)) }
    ensures { EntryPlace n slot result }
{
    (slot - 1) * entry_size(n)
}
