// The definition in specs/, and answers that it computes in proofs/: no code.
#![tactic(auto)]
