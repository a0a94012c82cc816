#![tactic(auto)]

// Definitions alone, the ones that every contract cites: see specs/.
