#![tactic(auto)]

// Definitions and laws alone: functions of an index, lists and their parts. See specs/ and proofs/.
