// The member half of an auction gateway: its begin. All other calls are the common ones. Beside the common begin and not one call for every
// kind, which would be no plainer: each contract names its board.
ghost use Rattle.std.specs.Prelude.{◌≡◌};
ghost use Rattle.lists.specs.Parts.{words};
ghost use Rattle.model.specs.Kinds.{auction};
ghost use Rattle.model.specs.RecordWords.{value_of};
ghost use Rattle.model.specs.Halves.{member_begin_number, member_begin_words};
ghost use Rattle.rules.specs.Refusals.{answer};

use crate::kinds::begin_by;
use rules::{Kind, Refusal};

pub fn begin(
    block: &mut [u32],
    n: u32,
    member: u32,
    slot: u32,
    operation: u32,
    value: [u32; 8],
) -> Result<(), Refusal>
    ensures value { answer result ≡ member_begin_number auction n member block.old slot operation }
    ensures block_after { block.new ≡ member_begin_words auction n member block.old slot operation (value_of (words value)) }
{
    begin_by(block, Kind::AUCTION, n, member, slot, operation, value)
}
