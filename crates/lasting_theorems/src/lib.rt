// What lasts by the rules, and demand 3 at work: statements in `specs/`, their proofs in `proofs/`. There is no code here.
#![tactic(auto)]
