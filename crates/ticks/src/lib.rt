// Signed numbers: what the laws of the crates above share. There are no functions.
#![tactic(auto)]
