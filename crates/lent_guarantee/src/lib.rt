// What the server guarantees, for the entry points on a lent state and lent records. No code: specs/Statement.antt is the statement.
#![tactic(auto)]
