// What the server guarantees of an OFFER (document 02, W-205), in specs/; no code of its own.
#![tactic(auto)]
