// The member's block: the steps on it, and what they require of it. An operation's type and a reply's seals are numbers here as in the
// calls above, whose callers hand in any number (the C interface). A block is lent as a part of the table, `&mut table[a..b]`, with n
// beside it: a struct that held both would need a clause in every step that it still holds the same words.
#![tactic(auto)]

mod halts;
mod layout;
mod marks;
mod parts;
pub mod phase;
pub mod steps;
