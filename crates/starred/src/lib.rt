// No code: the starred examples of document 01.
#![tactic(auto)]
