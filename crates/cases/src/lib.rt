// Document 01's bench image with its twelve cases, demand 3 at that image, and rows of document 02. There is no code here: specs/ and proofs/ speak of the
// unit's definitions, and no other proved crate depends on this one but the list of all claims.
#![tactic(auto)]
