// No code: what the state of a walk shows, in specs/ and proofs/.
#![tactic(auto)]
