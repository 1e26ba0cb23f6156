// What a host need not fear of the functions for C and Rust. No code: specs/Statement.antt is the statement.
#![tactic(auto)]
