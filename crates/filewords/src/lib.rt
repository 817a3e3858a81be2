// The words of the calls on files, and of the weave. The definitions stand in specs/, their laws in proofs/; this crate has no code.

#![tactic(auto)]
