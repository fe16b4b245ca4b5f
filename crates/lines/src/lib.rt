// The lines of a script and the lines printed for it (document 01, "The script program"), before any server: numbers and bytes as text.
// The layer promises that a line gives the command that its fields spell, that each printed line is the one that its definition spells,
// byte for byte, at the front of the text lent to it, and that nothing lent changes where a line can't be read or does not fit.
#![tactic(auto)]

pub mod commands;
pub mod numeral;
pub mod print;
pub mod write;

pub use commands::{Command, read};
pub use print::{blocks_line, closed_line, error_line, packet_line, refused_line};
