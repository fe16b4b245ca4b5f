// What is promised of the marking desk (document 02, A13), and the proofs: it compares with what `passday` prints, line by line; a line is right exactly
// when its answer is that; the marks are the count of right lines; an answer changes nothing of what later lines are compared with; and the right sheet
// of a readable script, its lines within the desk's buffer, gets full marks. Definitions and theorems; there is no code here.
#![tactic(auto)]
