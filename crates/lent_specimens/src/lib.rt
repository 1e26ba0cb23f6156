// Specimens of the lent call, in proofs/; no code of its own. They stand apart from the theorems of `lent_guarantee`, so that an edit of a statement is tried without them.
#![tactic(auto)]
