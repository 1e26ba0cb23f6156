// What the server guarantees of each call (demand 1), in specs/; no code of its own.
#![tactic(auto)]
