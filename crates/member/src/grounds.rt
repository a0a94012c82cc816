// What refuses each call on a member's block, in document 01's order.
ghost use Rattle.std.specs.Prelude.{◌≡◌, OnOk};
ghost use Rattle.model.specs.Kinds.{Kind as BoardKind};
ghost use Rattle.model.specs.Halves.{member_begin_number, reply_number, outcome_number, member_crash_number};
ghost use Rattle.records.specs.Meaning.{record_for};
ghost use Rattle.rules.specs.Refusals.{answer};
ghost use Rattle.member_block.specs.Needs.{Begins};

use crate::lent::{check_lent, check_member, check_waiting};
use member_block::phase::{COMMIT_SENT, SUBMIT_SENT};
use member_block::steps;
use records::Record;
use rules::{Kind, Refusal, check_size, is_numbered};

// Begin on a board of a kind: 1, 2, 3, the kind's 1, and from 4 on.
#[tactic(auto, unfolding(model::specs::Halves::member_begin_number), using(crate::proofs::Refusals::lent_block))]
pub fn check_begin(
    block: &[u32],
    kind: Kind,
    n: u32,
    member: u32,
    slot: u32,
    operation: u32,
) -> Result<(), Refusal>
    ensures value { (k : BoardKind) → kind.limit ≡ k.limit → kind.most ≡ k.most
        → answer result ≡ member_begin_number k n member block.now slot operation }
    ensures begins { OnOk result (Begins n block.now slot) }
{
    check_lent(block, n, member)?;
    check_size(kind, n)?;
    steps::check_begin(block, kind, n, member, slot, operation)
}

// A reply is due after a submit.
#[tactic(auto, unfolding(model::specs::Halves::reply_number), using(crate::proofs::Refusals::fields_within))]
pub fn check_reply(
    block: &[u32],
    n: u32,
    member: u32,
    newest: Record,
    stored: Record,
    seals: u32,
) -> Result<(), Refusal>
    ensures { answer result ≡ reply_number n member block.now (record_for n newest) (record_for n stored) seals }
{
    check_waiting(block, n, member, SUBMIT_SENT)?;
    if 3 < seals || !newest.fits(n) || !stored.fits(n) {
        return Err(Refusal::Field);
    }
    Ok(())
}

// An outcome is due after a commit.
#[tactic(auto, unfolding(model::specs::Halves::outcome_number))]
pub fn check_outcome(block: &[u32], n: u32, member: u32, res: u32) -> Result<(), Refusal>
    ensures { answer result ≡ outcome_number n member block.now res }
{
    check_waiting(block, n, member, COMMIT_SENT)?;
    if !is_numbered(res, 2) {
        return Err(Refusal::Field);
    }
    Ok(())
}

#[tactic(auto, unfolding(model::specs::Halves::member_crash_number), using(crate::proofs::Refusals::member_block))]
pub fn check_crash(block: &[u32], n: u32, member: u32) -> Result<(), Refusal>
    ensures { answer result ≡ member_crash_number n member block.now }
{
    check_member(block, n, member)?;
    steps::check_crash(block, n, member)
}
