// The text that is written for a formula (specs/Text.antt). There is no code here: proofs/ has what holds of it, that it reads back as the formula, that
// no text with the same meaning has fewer brackets, and that accepted bytes are those of their formula.
#![tactic(auto)]
