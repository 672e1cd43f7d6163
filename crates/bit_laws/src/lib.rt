// Laws on the bits of numbers and on numbers modulo 2^w, in `proofs/`. There is no code.
#![tactic(auto)]
