// Sessions: what a link's two sides are doing, which packets each state expects, and the packets that the server sends.
// Nothing here knows the store: a file is a place in it, and its numbers are given.
#![tactic(auto)]

pub mod reply;
pub mod state;
