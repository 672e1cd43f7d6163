// What a node means, and that builders and retain keep it: definitions in `specs/`, theorems in `proofs/`. There is no code.
#![tactic(auto)]
