// The words of the calls on matrices and policies. The definitions stand in specs/, their laws in proofs/; this crate has no code.

#![tactic(auto)]
