// The commands of a table document, and its form (paper 01 "Refusal answers", 2): a machine of the model runs over the
// commands, and the lowest place that is wrong is the answer.

#![tactic(auto)]

pub mod command;
pub mod form;
