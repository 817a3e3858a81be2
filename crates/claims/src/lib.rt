// What is claimed of the calls, in specs/, with the proofs in proofs/; this crate has no code.

#![tactic(auto)]
