// What the slave call promises beyond a single answer, as theorems about its definition. This crate has no code of its own.
#![tactic(auto)]
