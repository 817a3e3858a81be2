// What is claimed of the two files, in specs/, with the proofs in proofs/; this crate has no code.

#![tactic(auto)]
