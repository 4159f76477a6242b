// No code: definitions of lowering into a log (specs), shown to be the definitions' lowering (proofs).
#![tactic(auto)]
