// The starred cases of paper 01, as one fact about the definitions, in specs/Starred.antt. There is no code in this crate.

#![tactic(auto)]
