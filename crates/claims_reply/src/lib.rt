// What a master makes of a slave's replies, as theorems about their definitions. This crate has no code of its own.
#![tactic(auto)]
