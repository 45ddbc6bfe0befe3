// What follows from the rules: statements in `specs/`, their proofs in `proofs/`. There is no code here.
#![tactic(auto)]
