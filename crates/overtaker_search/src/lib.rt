// One pass over the steps of a script: what is remembered of the operation asked for, and who overtook it.
#![tactic(auto)]

pub mod steps;

// The submit that overtook the operation: its member, and the step at which the host took it.
#[derive(Clone, Copy, Debug, PartialEq, Eq)]
pub struct Overtaker {
    pub member: u32,
    pub step: u32,
}
