// What the request engine answers over memory in which tables were built (document 02, ask 8). It has no code.
#![tactic(auto)]
