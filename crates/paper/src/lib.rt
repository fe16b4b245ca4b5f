// Equations as on paper (crates/grammar), turned into postfix bytes. The layer promises that a text of the grammar whose bytes are at most 256 gives these
// bytes, and that any other text gives its first wrong place and the reason; a refusal writes nothing.
#![tactic(auto)]

mod constant;
mod output;
mod sums;

ghost use Rattle.std.specs.Prelude.{◌≡◌};
ghost use Rattle.refusal.specs.Refusal.{numbered};
ghost use Rattle.paper.specs.Answer.{answers, bytes_of};

use grammar::Reason;
use refusal::Refusal;

// How a text is answered: the number of its bytes; the first wrong place, counted from 1, and the reason; its bytes are above 256. Only an output too
// short is refused.
#[derive(Clone, Copy)]
pub enum Answer {
    Bytes(usize),
    Wrong(usize, Reason),
    Long,
}

// Turns a text into postfix bytes.
pub fn to_bytes(text: &[u8], out: &mut [u8]) -> Result<Answer, Refusal>
    ensures { answers (numbered result) out.new ≡ bytes_of text.now out.old }
{
    let mut buffer = [0u8; 256];
    match sums::sum(text, 0, 16, &mut buffer, 0) {
        Err(wrong) => Ok(Answer::Wrong(wrong.at + 1, wrong.reason)),
        Ok((e, m)) => {
            if e < text.len() {
                return Ok(Answer::Wrong(e + 1, Reason::Connective));
            }
            output::deliver(&buffer, m, out)
        }
    }
}
