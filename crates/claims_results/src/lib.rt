// One result for each promise: any two outcomes that a public function's contract allows are equal. This crate has no code.
#![tactic(auto)]
