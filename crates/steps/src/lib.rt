// What holds of every step of the machine of crates/model: it changes one file at most, keeps the numbers and times in order and what the sessions
// name in place, does not mind where the bytes of a link are cut, and shows a session nothing of its neighbours' partial files. Definitions and
// theorems only; there is no code here.
#![tactic(auto)]
