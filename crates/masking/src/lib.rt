#![tactic(auto)]

// Definitions and proofs alone: see specs/ and proofs/.
