// The known telegrams of document 01, proved about the definitions. This crate has no code of its own.
#![tactic(auto)]
