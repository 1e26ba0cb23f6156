// Specimens of what the server guarantees, computed by the prover, in proofs/; no code of its own. They stand apart from the theorems, so that an edit of a statement is tried without
// them.
#![tactic(auto)]
