// The lent state with its nodes in columns: what the columns stand for and what each call is to give of them, in specs/, and that both layouts go on alike,
// in proofs/: no code yet.
#![tactic(auto)]
