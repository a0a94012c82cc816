// The checks of a reply, in document 01's order, on the records by value and what the block knows.
ghost use Rattle.std.specs.Prelude.{◌≡◌};
ghost use Rattle.model.specs.Member.{halt_number};
ghost use Rattle.model.specs.Pairs.{halt_pairs};
ghost use Rattle.model.specs.Table.{member_in};
ghost use Rattle.lists.specs.Functions.{Within};
ghost use Rattle.rows.specs.Meaning.{matrix_in};
ghost use Rattle.records.specs.Meaning.{record_in};
ghost use Rattle.member_block.specs.Needs.{Running};
ghost use Rattle.checks.specs.Halts.{number_of};

use crate::layout::{SLOT_AT, layout};
use checks::halt::Halt;
use checks::steps::{Checked, matrix_halt, slot_halt};
use records::Record;
use records::steps::load_row;
use rows::Row;

// The first check that fails, if any, and the pairs compared until then. The known matrix is handed in, since the member's own record
// needs it too.
#[tactic(auto, using(crate::proofs::Sizes::rooms, crate::proofs::Sizes::running_slot, crate::proofs::InOrder::unsealed))]
pub fn halt_of(
    block: &[u32],
    n: usize,
    member: usize,
    known: [Row; 12],
    newest: Record,
    stored: Record,
    seals: u32,
) -> Checked
    requires { (Running n block.now) × ((Within n member) × (matrix_in known ≡ (member_in n block.now).known)) }
    ensures number_value { number_of result.halt
        ≡ halt_number n member (member_in n block.now) (record_in newest) (record_in stored) seals }
    ensures pairs_value { result.pairs ≡ halt_pairs n member (member_in n block.now) (record_in newest) (record_in stored) seals }
{
    if seals != 3 {
        return Checked {
            halt: Some(Halt::Seal),
            pairs: 0,
        };
    }
    let at = layout(n);
    let slot = block[SLOT_AT] as usize;
    let accepted = load_row(block, at.accepted, n);
    let latest = newest.matrix;
    let kept = stored.matrix;
    let first = slot_halt(known, accepted, latest, stored.member, n, member, slot);
    if first.halt.is_some() {
        return first;
    }
    let rest = matrix_halt(known, accepted, latest, kept, n, member, slot);
    let pairs = first.pairs + rest.pairs;
    Checked {
        halt: rest.halt,
        pairs,
    }
}
