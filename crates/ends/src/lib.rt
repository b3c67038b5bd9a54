// Two ends of one circuit agree: the statement is in specs/, its proof in proofs/. There is no code to call.
#![tactic(auto)]
