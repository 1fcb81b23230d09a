// The types that a table document names (paper 01 "Refusal answers", 4 and 5): each check runs one machine of the model over
// the document's commands and answers the lowest place that is wrong.

#![tactic(auto)]

pub mod operands;
pub mod repeats;
