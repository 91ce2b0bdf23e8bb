// The rules of the script page are definitions, in specs/, and theorems, in proofs/. This crate has no code.
#![tactic(auto)]
