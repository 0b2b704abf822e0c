// Rows for scalable mode. There is no code here, and no other proved crate depends on this one but the list of all claims.
#![tactic(auto)]
