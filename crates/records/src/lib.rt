// Records: what a member commits and the host keeps, by value and in table words.
#![tactic(auto)]

ghost use Rattle.std.specs.Prelude.{◌≡◌};
ghost use Rattle.model.specs.Records.{opening as openingOf, zero_record};
ghost use Rattle.model.specs.Kinds.{becomes_stored};
ghost use Rattle.model.specs.Halves.{fit_record};
ghost use Rattle.records.specs.Meaning.{record_in};

use rows::Row;
use rules::{WRITE, is_fit};

pub mod steps;

#[derive(Clone, Copy)]
pub struct Record {
    pub member: u32,
    pub slot: u32,
    // 1 read, 2 write; a number and no enum, since `load_record` answers with whatever word stands there
    pub operation: u32,
    pub count: u32,
    // document 01's sheet
    pub value: [u32; 8],
    // the timestamp matrix, a row for each slot
    pub matrix: [Row; 12],
}

impl Record {
    // The record of no operation: every part zero.
    #[tactic(auto, using(crate::proofs::Laws::blank_zero))]
    pub fn zero() -> Record
        ensures { record_in result ≡ zero_record }
    {
        Record {
            member: 0,
            slot: 0,
            operation: 0,
            count: 0,
            value: [0; 8],
            matrix: [Row::ZERO; 12],
        }
    }

    // Are its fields those of a record that came in a message?
    #[tactic(auto, unfolding(model::specs::Halves::fit_record, crate::specs::Meaning::record_in))]
    pub fn fits(self, n: u32) -> bool
        ensures { result ≡ fit_record n (record_in self) }
    {
        is_fit(self.member, self.slot, self.operation, n)
    }

    // Does it become the slot's stored record, once it is accepted? It does if it is by the slot's owner, read or write.
    #[tactic(auto, unfolding(model::specs::Kinds::becomes_stored, crate::specs::Meaning::record_in))]
    pub fn becomes_stored(self) -> bool
        ensures { result ≡ becomes_stored (record_in self) }
    {
        self.member == self.slot
    }

    // The opening record of a slot: a write by its owner with count, value and matrix zero.
    #[tactic(auto, using(crate::proofs::Laws::blank_opening))]
    pub fn opening(slot: u32) -> Record
        ensures { record_in result ≡ openingOf slot }
    {
        Record {
            member: slot,
            slot,
            operation: WRITE,
            count: 0,
            value: [0; 8],
            matrix: [Row::ZERO; 12],
        }
    }
}
