// What a slave of the same set-up makes of a master's telegrams, as theorems about their definitions. This crate has no code of its
// own.
#![tactic(auto)]
