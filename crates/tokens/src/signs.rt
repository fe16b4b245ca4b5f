// Operators.
ghost use Rattle.std.specs.Prelude.{◌≡◌, ◌≤◌, length};
ghost use Rattle.grammar.specs.Meaning.{operator_number, is_equality};
ghost use Rattle.tokens.specs.Tokens.{order_at, second_at, sign_at};

use grammar::Comparison;
use names::bytes::byte_of;

// "<" or ">", and what stands behind it.
fn order_at(
    text: &[u8],
    at: usize,
    alone: Comparison,
    equal: Comparison,
) -> Result<(Comparison, usize), usize>
    requires { at ≤ length text.now }
    ensures { result ≡ order_at text.now at alone equal }
{
    if byte_of(text, at) == 61 {
        return Ok((equal, at + 1));
    }
    Ok((alone, at))
}

// The second byte of "==" or "!=".
fn second_at(text: &[u8], at: usize, c: Comparison) -> Result<(Comparison, usize), usize>
    requires { at ≤ length text.now }
    ensures { result ≡ second_at text.now at c }
{
    if byte_of(text, at) == 61 {
        return Ok((c, at + 1));
    }
    Err(at)
}

// The operator at a place and the place behind it, or the first wrong place.
pub fn sign_at(text: &[u8], at: usize) -> Result<(Comparison, usize), usize>
    ensures { result ≡ sign_at text.now at }
{
    let b = byte_of(text, at);
    if b == 60 {
        return order_at(text, at + 1, Comparison::Less, Comparison::LessOrEqual);
    }
    if b == 62 {
        return order_at(
            text,
            at + 1,
            Comparison::Greater,
            Comparison::GreaterOrEqual,
        );
    }
    if b == 61 {
        return second_at(text, at + 1, Comparison::Equal);
    }
    if b == 33 {
        return second_at(text, at + 1, Comparison::NotEqual);
    }
    Err(at)
}

// The number of an operator.
pub fn operator_number(c: Comparison) -> u8
    ensures { result ≡ operator_number c }
{
    match c {
        Comparison::Equal => 0,
        Comparison::Greater => 1,
        Comparison::Less => 2,
        Comparison::NotEqual => 3,
        Comparison::GreaterOrEqual => 4,
        Comparison::LessOrEqual => 5,
    }
}

// A string may stand behind an operator.
#[tactic(auto, unfolding(grammar::specs::Meaning::is_equality))]
pub fn is_equality(c: Comparison) -> bool
    ensures { result ≡ is_equality c }
{
    matches!(c, Comparison::Equal | Comparison::NotEqual)
}
