// No code: what a call leaves in lent memory, in specs/ and proofs/.
#![tactic(auto)]
