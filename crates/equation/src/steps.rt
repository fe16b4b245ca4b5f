// The steps of an equation: one pass over its tokens.
ghost use Rattle.std.specs.Prelude.{◌≡◌, ◌≤◌, length};
ghost use Rattle.std.proofs.lemmas.List.Edits.{sets};
ghost use Rattle.equation.specs.Parsed.{steps_of};

use crate::tokens::{Token, read_token};

// Writes the steps of the equation to the front of `steps`, and answers how many they are: for a relation its place, 2,048 for AND, 2,049 for
// OR, 2,050 for what is none of these, with which they end.
pub(crate) fn list_steps(eq: &[u8], steps: &mut [u16]) -> usize
    requires { (length eq.now ≤ 2047) × (length eq.now ≤ length steps.old) }
    ensures value { result ≡ length (steps_of eq.now) }
    ensures steps_after { steps.new ≡ sets steps.old 0 (steps_of eq.now) }
{
    let mut at = 0;
    let mut n = 0;
    // a `loop`: each turn goes on behind the token that it read, and a relation is longer than one byte
    loop {
        match read_token(eq, at) {
            Token::Bad => {
                steps[n] = 2050;
                return n + 1;
            }
            Token::End => return n,
            Token::And => {
                steps[n] = 2048;
                n += 1;
                at += 1;
            }
            Token::Or => {
                steps[n] = 2049;
                n += 1;
                at += 1;
            }
            Token::Rel(_, _, m) => {
                steps[n] = at as u16;
                n += 1;
                at += 4 + m;
            }
        }
    }
}
