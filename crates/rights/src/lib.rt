// Demand 3's claims on rights for requests in scalable mode. There is no code here: specs/ and proofs/ speak of the rules of `scalable`.
#![tactic(auto)]
