// What pages a context's tables map, and what a list of pages to map and unmap leaves of it (document 02, ask 8). It has no code.
#![tactic(auto)]
