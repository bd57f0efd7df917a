// The demands of the mission: definitions and proofs only.
#![tactic(auto)]
