// What a state of the server stands for in the machine of crates/model (`view`): files by number where the store goes by place, free blocks as what is
// not reserved, sessions with their own parts of what is lent. Definitions and theorems only; there is no code here.
#![tactic(auto)]
