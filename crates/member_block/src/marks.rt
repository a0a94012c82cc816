// The parts of a block's check that look at numbers alone, number 3.
ghost use Rattle.std.specs.Prelude.{◌≡◌, not, ◌&&◌, ◌||◌, eqb, leb};
ghost use Rattle.lists.specs.Functions.{inside};
ghost use Rattle.model.specs.Kinds.{barred};

use crate::phase::HALTED;
use rules::is_barred;

// Are phase, crash mark and halt number in range?
pub fn sound_marks(phase: u32, crashed: u32, halt: u32) -> bool
    ensures { result ≡ (leb phase 6 && leb crashed 1 && (eqb halt 0 || leb 21 halt && leb halt 27)) }
{
    phase <= HALTED && crashed <= 1 && matches!(halt, 0 | 21..=27)
}

// Is the operation of a member in phase 1 to 5 one that begin takes?
#[tactic(auto, unfolding(lists::specs::Functions::inside))]
pub fn sound_operation(member: u32, phase: u32, slot: u32, operation: u32) -> bool
    ensures { result ≡ (not (inside 5 phase) || leb 1 slot && leb 1 operation && not (barred member slot operation)) }
{
    !matches!(phase, 1..=5) || 1 <= slot && 1 <= operation && !is_barred(member, slot, operation)
}
