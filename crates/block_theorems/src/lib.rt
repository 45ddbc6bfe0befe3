// What follows for the table in a block of bytes: statements in `specs/`, their proofs in `proofs/`. There is no code here.
#![tactic(auto)]
