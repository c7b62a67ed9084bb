// No functions: the marked cases of paper 01 are shown of the meanings, in specs/ and proofs/.
#![tactic(auto)]
