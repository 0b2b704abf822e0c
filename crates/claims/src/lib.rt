// Every claim that docs/PROOF.md names, as one theorem. There is no code here, and no crate depends on this one.
#![tactic(auto)]
