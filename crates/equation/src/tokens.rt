// The bytes of an equation, one token at a time.
ghost use Rattle.std.specs.Prelude.{◌≡◌, ◌+◌, ◌<◌, length, get_or, drop};
ghost use Rattle.equation.specs.Symbols.{stars_in, good_text, good_number, good, connective_of, relation_at, token_of};

// What stands at a place of an equation. A relation: its first byte, its item's id, its constant's length.
#[derive(Clone, Copy)]
pub enum Token {
    Bad,
    End,
    And,
    Or,
    Rel(u8, u16, usize),
}

// The number of `*` in a constant.
fn stars(constant: &[u8]) -> usize
    ensures { result ≡ stars_in constant.now }
{
    constant.iter().filter(|b| **b == b'*').count()
}

#[tactic(auto, unfolding(crate::specs::Symbols::good_text))]
fn good_text(operator: u8, constant: &[u8]) -> bool
    ensures { result ≡ good_text operator constant.now }
{
    matches!(operator, 0 | 3) && stars(constant) <= 4
}

#[tactic(auto, unfolding(crate::specs::Symbols::good_number))]
fn good_number(operator: u8, n: usize) -> bool
    ensures { result ≡ good_number operator n }
{
    operator <= 5 && crate::relation::number_width(n)
}

// A relation that is not refused, by its first byte and its constant.
#[tactic(auto, unfolding(crate::specs::Symbols::good))]
fn good_relation(code: u8, constant: &[u8]) -> bool
    ensures { result ≡ good code constant.now }
{
    let operator = code / 16 % 8;
    match code % 16 {
        0 => good_number(operator, constant.len()),
        3 => good_text(operator, constant),
        _ => false,
    }
}

// A byte with bit 7 clear, with so many bytes left after it.
#[tactic(auto, unfolding(crate::specs::Symbols::connective_of))]
fn connective(code: u8, left: usize) -> Token
    ensures { result ≡ connective_of code left }
{
    match code {
        0 if left == 0 => Token::End,
        1 => Token::And,
        2 => Token::Or,
        _ => Token::Bad,
    }
}

// The relation whose first byte stands at a place.
fn read_relation(eq: &[u8], at: usize) -> Token
    requires { at < length eq.now }
    ensures { result ≡ relation_at (get_or eq.now at 0) (drop (at + 1) eq.now) }
{
    if eq.len() - at < 4 {
        return Token::Bad;
    }
    let code = eq[at];
    let id = numbers::number16(eq[at + 1], eq[at + 2]);
    let n = eq[at + 3] as usize;
    let start = at + 4;
    if eq.len() - start < n {
        return Token::Bad;
    }
    let end = start + n;
    if good_relation(code, &eq[start..end]) {
        Token::Rel(code, id, n)
    } else {
        Token::Bad
    }
}

// The token at a place; past the last byte it is the end.
pub fn read_token(eq: &[u8], at: usize) -> Token
    ensures { result ≡ token_of (drop at eq.now) }
{
    if eq.len() <= at {
        return Token::End;
    }
    let code = eq[at];
    if code < 128 {
        connective(code, eq.len() - at - 1)
    } else {
        read_relation(eq, at)
    }
}
