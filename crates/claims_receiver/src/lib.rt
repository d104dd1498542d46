// What the receiver promises over many calls, alone and with a slave behind it, as theorems about its definition. This crate has no
// code of its own.
#![tactic(auto)]
