// Edges of 01, and jobs with the answers of core.rs, replayed on the definition, in proofs/: no code.
#![tactic(auto)]
