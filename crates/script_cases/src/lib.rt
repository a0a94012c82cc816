#![tactic(auto)]

// Definitions alone: scripts and what the programs print of them, by hand, and that each holds. See specs/ and proofs/.
