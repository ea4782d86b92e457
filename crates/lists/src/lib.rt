// Lists by index, tables, bytes and tests: definitions and laws that the crates above cite.
#![tactic(auto)]
