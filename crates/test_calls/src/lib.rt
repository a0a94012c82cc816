// The reader, the writer and the two halves as calls on slices: a struct by value does not cross to another language. Only tests/, which
// compares these calls with a simulator made apart, and bench/, which times two of them, use this crate; the product does not.
#![tactic(auto)]

mod halves;
mod timed;
mod wire;
mod words;
