// Document 01's example script and what it prints, computed from the definitions of crates/script and of the server. Definitions and one theorem; there
// is no code here.
#![tactic(auto)]
