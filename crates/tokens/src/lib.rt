// The tokens of an equation as on paper (crates/grammar): blanks, items, operators, numbers and the characters of a string, each read at a place of a
// text, wherever the place is. The layer promises that each reader finds what specs/Tokens.antt says, and that the machine of the grammar, standing at
// the place, then stands behind the token, or is refused where and why the reader says (proofs/TokenLaws.antt, proofs/ItemLaws.antt).
#![tactic(auto)]

pub mod amounts;
pub mod items;
pub mod signs;
pub mod strings;

use grammar::Reason;

// The first wrong place of a text, and why it is wrong.
#[derive(Clone, Copy)]
pub struct Wrong {
    pub at: usize,
    pub reason: Reason,
}
