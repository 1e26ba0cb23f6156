// The order of records makes no difference to what a client sees. No code: specs/Statement.antt is the statement.
#![tactic(auto)]
