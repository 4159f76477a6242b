// The definitions stand in specs/, and what is proved of them in proofs/: this crate has no code.
#![tactic(auto)]
