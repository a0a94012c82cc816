#![tactic(auto)]

// Definitions and laws alone: when a log of accepted operations holds, and that the log of every run of our own board does. See specs/ and
// proofs/.
