// What refuses every call on a member's block, in document 01's order: what is lent, and who and where the member is.
ghost use Rattle.std.specs.Prelude.{◌≡◌, cond};
ghost use Rattle.model.specs.Table.{member_in};
ghost use Rattle.model.specs.Numbers.{or_else};
ghost use Rattle.model.specs.Halves.{not_waiting, lent_number, member_number};
ghost use Rattle.rules.specs.Refusals.{answer};

use member_block::steps::{CRASHED_AT, PHASE_AT, block_size, sound_block};
use rules::{MOST_MEMBERS, Refusal, is_numbered};

// 1, 2, 3: the board's size, the block.
#[tactic(auto, unfolding(model::specs::Halves::lent_number, model::specs::Table::block_number, lists::specs::Functions::inside))]
pub fn check_lent(block: &[u32], n: u32, member: u32) -> Result<(), Refusal>
    ensures { answer result ≡ lent_number n member block.now }
{
    if !is_numbered(n, MOST_MEMBERS) {
        return Err(Refusal::Size);
    }
    if block.len() != block_size(n as usize) {
        return Err(Refusal::Length);
    }
    if !sound_block(block, n, member) {
        return Err(Refusal::Word);
    }
    Ok(())
}

// 1, 2, 3, 4: and the member.
#[tactic(auto, unfolding(model::specs::Halves::member_number))]
pub fn check_member(block: &[u32], n: u32, member: u32) -> Result<(), Refusal>
    ensures { answer result ≡ member_number n member block.now }
{
    check_lent(block, n, member)?;
    if !is_numbered(member, n) {
        return Err(Refusal::Member);
    }
    Ok(())
}

// 1 to 4, and 10: the member is in another phase than the message needs, or has crashed.
#[tactic(auto, unfolding(model::specs::Halves::not_waiting, model::specs::Table::member_of), using(crate::proofs::Refusals::head))]
pub fn check_waiting(block: &[u32], n: u32, member: u32, phase: u32) -> Result<(), Refusal>
    ensures { let l = block.now in
        answer result ≡ or_else (member_number n member l) (cond (not_waiting phase (member_in n l)) 10 0) }
{
    check_member(block, n, member)?;
    if block[PHASE_AT] != phase || block[CRASHED_AT] != 0 {
        return Err(Refusal::NotDue);
    }
    Ok(())
}
