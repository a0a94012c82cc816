#![tactic(auto)]

// Laws alone, proved once about the definitions of `model`: see proofs/.
