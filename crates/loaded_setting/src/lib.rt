// What carrying and bringing back may assume of loaded tables and a loaded embedding once they are judged: specs/Ready.antt.
// There is no code in this crate.

#![tactic(auto)]
