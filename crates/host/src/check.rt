// What refuses a submit or a commit: the grounds in their order.
ghost use Rattle.std.specs.Prelude.{◌≡◌, ◌≤◌, length};
ghost use Rattle.model.specs.Table.{host_in, stored_in, entries_number};
ghost use Rattle.model.specs.Halves.{host_number};
ghost use Rattle.rules.specs.Refusals.{answer};

use crate::steps::{host_size, sound_entries};
use rules::{MOST_MEMBERS, Refusal, check_fields, is_numbered};

// 2 and 3: the entries' length and their fields.
#[tactic(auto, unfolding(model::specs::Table::entries_number))]
fn check_entries(entries: &[u32], n: u32) -> Result<(), Refusal>
    requires { n ≤ 12 }
    ensures { let l = entries.now in answer result ≡ entries_number n (length l) (host_in n l) (stored_in n l) }
{
    if entries.len() != host_size(n as usize) {
        return Err(Refusal::Length);
    }
    if !sound_entries(entries, n) {
        return Err(Refusal::Word);
    }
    Ok(())
}

// 1, then these, then 4 to 7, by the fields of a submit or of a record.
#[tactic(auto, unfolding(model::specs::Halves::host_number, model::specs::Kinds::is_size, lists::specs::Functions::inside))]
pub fn check_host(
    entries: &[u32],
    n: u32,
    member: u32,
    slot: u32,
    operation: u32,
) -> Result<(), Refusal>
    ensures { answer result ≡ host_number n entries.now member slot operation }
{
    if !is_numbered(n, MOST_MEMBERS) {
        return Err(Refusal::Size);
    }
    check_entries(entries, n)?;
    check_fields(n, member, slot, operation)
}
