// No code: the theory of runs, in specs/ and proofs/.
#![tactic(auto)]
