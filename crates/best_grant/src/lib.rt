// That nobody could have given more than the server grants (document 02, W-214), in specs/; no code of its own.
#![tactic(auto)]
