// The answer of the program to an input. The definitions stand in specs/, their laws in proofs/; this crate has no code.

#![tactic(auto)]
