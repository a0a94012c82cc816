// The member half: begin, take a reply, take an outcome, crash, on the member's own part of the table. Type, seals and outcome are handed
// in as numbers, since any other number is refused here: an enum would ask the caller to judge them.
#![tactic(auto)]

ghost use Rattle.std.specs.Prelude.{◌≤◌, ◌≡◌, IfOk};
ghost use Rattle.lists.specs.Parts.{words};
ghost use Rattle.model.specs.Kinds.{concur};
ghost use Rattle.model.specs.RecordWords.{value_of};
ghost use Rattle.model.specs.Halves.{member_begin_number, member_begin_words, reply_number, reply_pairs, reply_words};
ghost use Rattle.model.specs.Pairs.{most_pairs};
ghost use Rattle.model.specs.Halves.{outcome_number, outcome_words, outcome_returns, member_crash_number, member_crash_words};
ghost use Rattle.records.specs.Meaning.{record_for};
ghost use Rattle.rules.specs.Refusals.{answer};
ghost use Rattle.member_block.specs.Results.{returned_of};

pub mod auction;
mod grounds;
mod kinds;
mod lent;

use grounds::{check_crash, check_outcome, check_reply};
use kinds::begin_by;
use member_block::steps;
use records::Record;
use rules::{Kind, Refusal};

pub fn begin(
    block: &mut [u32],
    n: u32,
    member: u32,
    slot: u32,
    operation: u32,
    value: [u32; 8],
) -> Result<(), Refusal>
    ensures value { answer result ≡ member_begin_number concur n member block.old slot operation }
    ensures block_after { block.new ≡ member_begin_words concur n member block.old slot operation (value_of (words value)) }
{
    begin_by(block, Kind::CONCUR, n, member, slot, operation, value)
}

// How many pairs of counts the checks compared.
#[tactic(auto, using(crate::proofs::Refusals::reply_good))]
pub fn take_reply(
    block: &mut [u32],
    n: u32,
    member: u32,
    newest: Record,
    stored: Record,
    seals: u32,
) -> Result<u32, Refusal>
    ensures number_value { answer result ≡ reply_number n member block.old (record_for n newest) (record_for n stored) seals }
    ensures pairs_value { IfOk result (λ pairs. pairs
        ≡ reply_pairs n member block.old (record_for n newest) (record_for n stored) seals) }
    ensures pairs_bound { IfOk result (λ pairs. pairs ≤ most_pairs n) }
    ensures block_after { block.new ≡ reply_words n member block.old (record_for n newest) (record_for n stored) seals }
{
    check_reply(block, n, member, newest, stored, seals)?;
    let pairs = steps::reply(block, n as usize, member, newest, stored, seals);
    Ok(pairs)
}

// The value that an accepted read returns. An outcome is 1 accepted, 2 aborted.
#[tactic(auto, using(crate::proofs::Refusals::outcome_good))]
pub fn take_outcome(
    block: &mut [u32],
    n: u32,
    member: u32,
    res: u32,
) -> Result<Option<[u32; 8]>, Refusal>
    ensures number_value { answer result ≡ outcome_number n member block.old res }
    ensures result_value { returned_of result ≡ outcome_returns n member block.old res }
    ensures block_after { block.new ≡ outcome_words n member block.old res }
{
    check_outcome(block, n, member, res)?;
    Ok(steps::finish(block, n as usize, res == 1))
}

#[tactic(auto, using(crate::proofs::Refusals::crash_good))]
pub fn crash(block: &mut [u32], n: u32, member: u32) -> Result<(), Refusal>
    ensures value { answer result ≡ member_crash_number n member block.old }
    ensures block_after { block.new ≡ member_crash_words n member block.old }
{
    check_crash(block, n, member)?;
    steps::mark_crashed(block, n as usize);
    Ok(())
}
