// Theory only: what a row does to the live state, over any rules, and that it is the step of a run. The meanings are in specs/, the laws in proofs/.
#![tactic(auto)]
