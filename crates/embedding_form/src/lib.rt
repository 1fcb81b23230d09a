// Check 2 of an embedding document (paper 01, "Refusal answers"), its form; the commands that all its checks read, and the
// number of a table's edges. specs/ says which state of the model's machine each state of the code stands for.

#![tactic(auto)]

pub mod command;
pub mod count;
pub mod edges;
pub mod form;
