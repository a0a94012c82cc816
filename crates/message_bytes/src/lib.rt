// The bytes of a message: how long its parts are, where they stand, and numbers and records in them.

#![tactic(auto)]

pub mod steps;
