// The commands of a tree document, and check 2 of paper 01, its form.

#![tactic(auto)]

pub mod command;
pub mod form;
