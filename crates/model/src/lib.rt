// Definitions and theorems only: what paper 01 says stands in specs/. There is no code in this crate.

#![tactic(auto)]
