// A job piece by piece: what a call of engine::job tells, in specs/, and that the pieces make the log, in proofs/: no code.
#![tactic(auto)]
