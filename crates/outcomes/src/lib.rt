// What the entries that write answer, by the judged documents and by what is done with them: definitions and laws only, in
// specs/Outcomes.antt.

#![tactic(auto)]
