// The limits of a table document (paper 01 "Refusal answers", 3): a machine of the model runs over the document's commands,
// and the lowest place that is wrong is the answer; `formed` runs it and that of the form at once.

#![tactic(auto)]

pub mod formed;
pub mod limits;
