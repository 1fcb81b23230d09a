// The judge of a tree document by a loaded table: paper 01's checks 1 to 4 and 11.

#![tactic(auto)]

pub mod judge;
