// Definitions and laws of formats, how values stand in octets, in specs/; no code of its own.
#![tactic(auto)]
