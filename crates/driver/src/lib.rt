// A driver that calls the functions of crates/embed on memory that nobody else writes makes a history of the server's calls: what is proved of histories
// holds of it. Definitions and theorems only; there is no code here.
#![tactic(auto)]
