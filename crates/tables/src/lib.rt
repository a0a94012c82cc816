// The table of a board: n, the member blocks and the host entries. Its layout, its check and its opening; the calls stand above. It is lent
// as a slice, since C lends it so; a struct that held the slice would need a clause in every step that it still holds the same words.

#![tactic(auto)]

pub mod check;
pub mod steps;
