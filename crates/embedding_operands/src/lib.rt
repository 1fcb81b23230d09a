// Checks 3 and 4 of an embedding document (paper 01, "Refusal answers"): its limits and its operands. specs/ says which
// state of the model's machines each state of the code stands for.

#![tactic(auto)]

pub mod limits;
pub mod operands;
pub mod step;
