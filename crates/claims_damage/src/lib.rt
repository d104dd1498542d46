// Which damage the frame check sees, as theorems about its definition. This crate has no code of its own.
#![tactic(auto)]
