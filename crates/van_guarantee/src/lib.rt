// What the van's own server guarantees over any list of calls, and that it prints record by record, in specs/; with specimens of its settings and lines, in proofs/. No code of its own.
// They stand apart from the code, so that an edit of the van's server is tried without them.
#![tactic(auto)]
