// What a salvage guarantees of any octets and rooms, in specs/; no code of its own. It stands apart from the code, so that an edit of the salvage is tried without it.
#![tactic(auto)]
