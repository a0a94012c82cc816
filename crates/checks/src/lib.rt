// The checks of a reply, number by number, and the matrix of the member's own record, on rows and matrices by value.

#![tactic(auto)]

pub mod halt;
pub mod steps;
