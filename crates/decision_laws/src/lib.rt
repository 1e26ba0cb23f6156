// What holds of every decision, in specs/: its cases, a sound book kept sound, and that the code's decision by one tenant's records is the book's; and its specimens, in proofs/. No code of
// its own. They stand apart from the code, so that an edit of the decision is tried without them.
#![tactic(auto)]
