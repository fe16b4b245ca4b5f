// Laws on the rows of an answer sheet (crates/marking/specs/Desk.antt): what is still to be printed from any point of a line on, and how a step, a line's
// beginning and its end change it; what is put at once, and how long it can be. Theorems only; there is no code here.
#![tactic(auto)]
