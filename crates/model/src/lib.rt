// No code: runs of a trace, in specs/, and the theorems about them, in proofs/.
#![tactic(auto)]
