// Begin on a board of a kind.
ghost use Rattle.std.specs.Prelude.{◌≡◌};
ghost use Rattle.lists.specs.Parts.{words};
ghost use Rattle.model.specs.Kinds.{Kind as BoardKind};
ghost use Rattle.model.specs.RecordWords.{value_of};
ghost use Rattle.model.specs.Halves.{member_begin_number, member_begin_words};
ghost use Rattle.rules.specs.Refusals.{answer};

use crate::grounds::check_begin;
use member_block::steps;
use rules::{Kind, Refusal};

pub fn begin_by(
    block: &mut [u32],
    kind: Kind,
    n: u32,
    member: u32,
    slot: u32,
    operation: u32,
    value: [u32; 8],
) -> Result<(), Refusal>
    ensures value { (k : BoardKind) → kind.limit ≡ k.limit → kind.most ≡ k.most
        → answer result ≡ member_begin_number k n member block.old slot operation }
    ensures block_after { (k : BoardKind) → kind.limit ≡ k.limit → kind.most ≡ k.most
        → block.new ≡ member_begin_words k n member block.old slot operation (value_of (words value)) }
{
    check_begin(block, kind, n, member, slot, operation)?;
    steps::begin(block, n as usize, slot, operation, value);
    Ok(())
}
