// The window of the running code: the statement is in specs/, the proof in proofs/. There is no code here.
#![tactic(auto)]
