#![tactic(auto)]

// Definitions and laws alone: the worked cases of document 01, and that each holds. See specs/ and proofs/.
