// What is listed of a source's pages, beside what the request engine answers there. It has no code.
#![tactic(auto)]
