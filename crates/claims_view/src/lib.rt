// That a view shows exactly the records of its table, as theorems about its definition. This crate has no code of its own.
#![tactic(auto)]
