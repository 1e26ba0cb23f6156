// What the server guarantees over any list of calls, in specs/; no code of its own.
#![tactic(auto)]
