// Check 4 of a tree document, its operands: types that exist, and characters that are allowed.

#![tactic(auto)]

pub mod operands;
