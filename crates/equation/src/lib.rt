// Equations of SELECT (document 01, "Equations"): whether one is accepted, whatever the files, and whether it is true of a file's header.
// The layer promises that an equation is refused with 8 exactly where the papers say so, with 33 above 2,047 bytes, and that an accepted one
// is true of a header exactly when its tree is, each relation being true where any item of its id meets it.
// An equation is parsed once for all files: `parse` judges it and lists its steps. The truth is then found in two phases, so that a header is
// read once and its items may come from anywhere: `settle` for each item in turn, then `outcome`. `evaluate` does all on a file in one slice.
#![tactic(auto)]

pub mod evaluation;
pub mod relation;
mod steps;
pub mod tokens;
