// The names of header items, and the kinds of bytes, that equations as on paper are made of (crates/grammar). The layer promises that no name is the
// beginning of another, and that the name found at a place is the one that stands there.
#![tactic(auto)]

pub mod bytes;
pub mod table;
