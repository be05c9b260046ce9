// Document 01 as definitions, in specs/, and what is true of them, in proofs/. No function.
#![tactic(auto)]
