// The body check as the code does it: helper definitions and proofs; no code.
#![tactic(auto)]
