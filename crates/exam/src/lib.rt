// The exam's question on the marking desk: a pupil's answer sheet of four lines, and what the desk prints for it, computed from the definitions of
// crates/marking, of the script and of the server. Definitions and one theorem; there is no code here.
#![tactic(auto)]
