// What the calls do on a table that passed its check.
#![tactic(auto)]

mod phases;
pub mod steps;
