// Two exchanges agree, table against table and over the link: statements are in specs/, proofs in proofs/. There is no code to call.
#![tactic(auto)]
