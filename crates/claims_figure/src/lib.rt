// That figures are exact, as theorems about their definition. This crate has no code of its own.
#![tactic(auto)]
