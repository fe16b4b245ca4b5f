// THE PROGRAMS `desk` and `sheet`: every run of their turns (crates/sitting), however the input comes in pieces, writes the output for the input that was
// read (`EveryRun`, `ProgramPrints`, specs/Prints.antt). Theorems only; there is no code here.
#![tactic(auto)]
