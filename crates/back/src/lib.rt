// An accepted equation written back as on paper (crates/grammar), with the fewest brackets. It is proved (crates/readback) that the text reads back as the same
// bytes, that no text with these bytes has fewer pairs of brackets, and that an equation is refused as nested too deep only where every text is.
// The text is put together from its end, over the steps of the equation (crates/equation), and then moved to the front of the lent output.
#![tactic(auto)]

ghost use Rattle.std.specs.Prelude.{◌≡◌, true, List, [], ◌∷◌, ◌++◌, ℕ, ◌+◌, ◌≤◌, ◌<◌, ◌/◌, ◌%◌, max, ltb, length};
ghost use Rattle.numbers.specs.Numbers.{number};
ghost use Rattle.numbers.specs.Hex.{hex_digit};
ghost use Rattle.lines.specs.Text.{decimal_of};
ghost use Rattle.equation.specs.Relation.{width};
ghost use Rattle.equation.specs.Symbols.{good};
ghost use Rattle.equation.specs.Holds.{relation_of};
ghost use Rattle.equation.specs.Newer.{unmarked};
ghost use Rattle.equation.specs.Parsed.{relation_from};
ghost use Rattle.grammar.specs.Meaning.{least_width, width_of};
ghost use Rattle.grammar.specs.Grammar.{item_text, operator_text, character_text, constant_text};
ghost use Rattle.writing.specs.Text.{item_for, character_for, number_for, constant_for, comparison_for, relation_text};
ghost use Rattle.writing.specs.Places.{nesting_at, connective_text, opening, closing, quoted, Stands};
ghost use Rattle.writing.specs.Pieces.{Piece};
ghost use Rattle.back.specs.Steps.{binding_of, Ready, Room, FormulaPut, Measured, Accepted};
ghost use Rattle.refusal.specs.Refusal.{numbered};
ghost use Rattle.back.specs.Answer.{answers, Delivers, Replies, written_of};

use equation::evaluation::parse;
use equation::tokens::{Token, read_token};
use names::bytes::is_printed;
use names::table::row_of;
use numbers::{hex_digit, number16, number32};
use refusal::Refusal;

// How an equation is answered: the number of bytes of its text; it ends in an end mark; its text would nest deeper than 16; it has more than 256 bytes.
// Bytes that are no equation, and an output too short, are refused.
#[derive(Clone, Copy)]
pub enum Answer {
    Text(usize),
    Mark,
    Deeper,
    Bytes,
}

// Where a formula's steps begin, and where its text does.
#[derive(Clone, Copy)]
struct Place {
    at: usize,
    n: usize,
}

// Where a formula's steps begin, and how deep brackets are nested in its text.
#[derive(Clone, Copy)]
struct Nesting {
    at: usize,
    deep: usize,
}

// ---- pieces of text, each put before place n

// A byte.
fn put(b: u8, out: &mut [u8], n: usize) -> usize
    requires { 1 ≤ n }
    ensures { Piece (b ∷ []) n out.old result out.new }
{
    let k = n - 1;
    if k < out.len() {
        out[k] = b;
    }
    k
}

// Bytes.
fn put_all(s: &[u8], out: &mut [u8], n: usize) -> usize
    requires { length s.now ≤ n }
    ensures { Piece s.now n out.old result out.new }
{
    let mut k = n;
    for b in s.iter().rev() {
        k = put(*b, out, k);
    }
    k
}

// A byte in two hex digits.
fn put_hex(b: u8, out: &mut [u8], n: usize) -> usize
    requires { 2 ≤ n }
    ensures { Piece (hex_digit (b / 16) ∷ hex_digit (b % 16) ∷ []) n out.old result out.new }
{
    let k = put(hex_digit(b % 16), out, n);
    put(hex_digit(b / 16), out, k)
}

// A number in decimal, its last digit first.
fn put_decimal(v: u32, out: &mut [u8], n: usize) -> usize
    requires { length (decimal_of v) ≤ n }
    ensures { Piece (decimal_of v) n out.old result out.new }
{
    if v < 10 {
        return put(b'0' + v as u8, out, n);
    }
    let k = put(b'0' + (v % 10) as u8, out, n);
    put_decimal(v / 10, out, k)
}

// ---- relations

// A string's byte, escaped where it must be.
fn put_character(b: u8, out: &mut [u8], n: usize) -> usize
    requires { length (character_text (character_for b)) ≤ n }
    ensures { Piece (character_text (character_for b)) n out.old result out.new }
{
    match b {
        b'"' => put_all(b"\\\"", out, n),
        b'\\' => put_all(b"\\\\", out, n),
        _ if is_printed(b) => put(b, out, n),
        _ => {
            let k = put_hex(b, out, n);
            put_all(b"\\x", out, k)
        }
    }
}

fn put_characters(s: &[u8], out: &mut [u8], n: usize) -> usize
    requires { length (quoted s.now) ≤ n }
    ensures { Piece (quoted s.now) n out.old result out.new }
{
    let mut k = n;
    for b in s.iter().rev() {
        k = put_character(*b, out, k);
    }
    k
}

// The number of 1, 2 or 4 bytes.
fn value(s: &[u8]) -> u32
    requires { width (length s.now) ≡ true }
    ensures { result ≡ number s.now }
{
    match s.len() {
        1 => u32::from(s[0]),
        2 => u32::from(number16(s[0], s[1])),
        _ => number32(s[0], s[1], s[2], s[3]),
    }
}

fn least_width(v: u32) -> u8
    ensures { result ≡ least_width v }
{
    if v < 256 {
        1
    } else if v < 65536 {
        2
    } else {
        4
    }
}

// The width that a number of an item is read with where none is written.
fn taken_width(id: u16, v: u32) -> u8
    ensures { result ≡ width_of id v }
{
    row_of(id).width.max(least_width(v))
}

// A number, with its width where that is not the one that would be taken.
fn put_number(id: u16, s: &[u8], out: &mut [u8], n: usize) -> usize
    requires s_value { width (length s.now) ≡ true }
    requires s_len_bound { length (constant_text (number_for id (length s.now) (number s.now))) ≤ n }
    ensures { Piece (constant_text (number_for id (length s.now) (number s.now))) n out.old result out.new }
{
    let v = value(s);
    let w = s.len();
    if w == taken_width(id, v) as usize {
        return put_decimal(v, out, n);
    }
    let k = put(b'0' + w as u8, out, n);
    let j = put(b':', out, k);
    put_decimal(v, out, j)
}

fn put_string(s: &[u8], out: &mut [u8], n: usize) -> usize
    requires { 2 + length (quoted s.now) ≤ n }
    ensures { Piece (34 ∷ (quoted s.now ++ 34 ∷ [])) n out.old result out.new }
{
    let k = put(b'"', out, n);
    let j = put_characters(s, out, k);
    put(b'"', out, j)
}

// A relation's constant, by its first byte, its item's id and its bytes.
fn put_constant(code: u8, id: u16, s: &[u8], out: &mut [u8], n: usize) -> usize
    requires s_value { good code s.now ≡ true }
    requires s_len_bound { length (constant_text (constant_for (relation_of code id s.now))) ≤ n }
    ensures { Piece (constant_text (constant_for (relation_of code id s.now))) n out.old result out.new }
{
    if code % 16 == 3 {
        return put_string(s, out, n);
    }
    put_number(id, s, out, n)
}

fn put_operator(number: u8, out: &mut [u8], n: usize) -> usize
    requires { length (operator_text (comparison_for number)) ≤ n }
    ensures { Piece (operator_text (comparison_for number)) n out.old result out.new }
{
    match number {
        0 => put_all(b"==", out, n),
        1 => put_all(b">", out, n),
        2 => put_all(b"<", out, n),
        3 => put_all(b"!=", out, n),
        4 => put_all(b">=", out, n),
        _ => put_all(b"<=", out, n),
    }
}

// An item, by its name where it has one.
fn put_item(id: u16, out: &mut [u8], n: usize) -> usize
    requires { length (item_text (item_for id)) ≤ n }
    ensures { Piece (item_text (item_for id)) n out.old result out.new }
{
    let row = row_of(id);
    let size = row.size;
    if size == 0 {
        let k = put_hex((id % 256) as u8, out, n);
        let j = put_hex((id / 256) as u8, out, k);
        return put(b'#', out, j);
    }
    let letters = row.letters;
    put_all(&letters[..size], out, n)
}

// The relation that stands at a place of the equation.
fn put_relation(bytes: &[u8], at: usize, out: &mut [u8], n: usize) -> usize
    requires stands { Stands bytes.now at }
    requires at_len_bound { length (relation_text (relation_from bytes.now at)) ≤ n }
    ensures { Piece (relation_text (relation_from bytes.now at)) n out.old result out.new }
{
    let code = bytes[at];
    let id = number16(bytes[at + 1], bytes[at + 2]);
    let start = at + 4;
    let end = start + bytes[at + 3] as usize;
    let k = put_constant(code, id, &bytes[start..end], out, n);
    let j = put(b' ', out, k);
    let i = put_operator(code / 16 % 8, out, j);
    let h = put(b' ', out, i);
    put_item(id, out, h)
}

// ---- formulas

// How close a step's connective binds: 1 for AND, 0 for OR.
fn binding(step: u16) -> u8
    ensures value { result ≡ binding_of step }
    ensures upper_bound { result ≤ 1 }
{
    if step == 2048 { 1 } else { 0 }
}

fn put_closing(p: u8, level: u8, out: &mut [u8], n: usize) -> usize
    requires { length (closing p level) ≤ n }
    ensures { Piece (closing p level) n out.old result out.new }
{
    if p < level { put(b')', out, n) } else { n }
}

fn put_opening(p: u8, level: u8, out: &mut [u8], n: usize) -> usize
    requires { length (opening p level) ≤ n }
    ensures { Piece (opening p level) n out.old result out.new }
{
    if p < level { put(b'(', out, n) } else { n }
}

fn put_connective(p: u8, out: &mut [u8], n: usize) -> usize
    requires { 4 ≤ n }
    ensures { Piece (connective_text p) n out.old result out.new }
{
    if p == 1 {
        put_all(b" && ", out, n)
    } else {
        put_all(b" || ", out, n)
    }
}

// The formula whose steps end before step e, in brackets where it binds less close than its place asks for.
fn put_formula(bytes: &[u8], steps: &[u16], e: usize, level: u8, out: &mut [u8], n: usize) -> Place
    requires { Room bytes.now steps.now e level n }
    ensures { FormulaPut bytes.now steps.now e level n out.old result out.new }
{
    let i = e - 1;
    let s = steps[i];
    if s < 2048 {
        let m = put_relation(bytes, s as usize, out, n);
        return Place { at: i, n: m };
    }
    let p = binding(s);
    let m = put_closing(p, level, out, n);
    let b = put_formula(bytes, steps, i, p + 1, out, m);
    let k = put_connective(p, out, b.n);
    let a = put_formula(bytes, steps, b.at, p, out, k);
    let o = put_opening(p, level, out, a.n);
    Place { at: a.at, n: o }
}

// How deep brackets are nested in the text of the formula whose steps end before step e.
fn depth(steps: &[u16], e: usize, level: u8) -> Nesting
    requires { (bytes : List ℕ) × Ready bytes steps.now e }
    ensures { (bytes : List ℕ) (w : Ready bytes steps.now e) → Measured (nesting_at level w.formula) w.before result }
{
    let i = e - 1;
    let s = steps[i];
    if s < 2048 {
        return Nesting { at: i, deep: 0 };
    }
    let p = binding(s);
    let b = depth(steps, i, p + 1);
    let a = depth(steps, b.at, p);
    let most = a.deep.max(b.deep);
    let deep = if p < level { most + 1 } else { most };
    Nesting { at: a.at, deep }
}

// ---- the answer

// How many bytes of the equation stand before its end mark.
fn size_unmarked(bytes: &[u8]) -> usize
    ensures { result ≡ length (unmarked bytes.now) }
{
    let mut at = 0;
    // a `loop`: each turn goes on behind the token that it read, and a relation is longer than one byte
    loop {
        match read_token(bytes, at) {
            Token::Bad | Token::End => return at,
            Token::And | Token::Or => at += 1,
            Token::Rel(_, _, m) => at += 4 + m,
        }
    }
}

// Delivers the text of an accepted equation of at most 256 bytes, given with its steps.
fn deliver(bytes: &[u8], steps: &[u16], out: &mut [u8]) -> Result<Answer, Refusal>
    requires accepted { Accepted bytes.now steps.now }
    requires bytes_len_bound { length bytes.now ≤ 256 }
    ensures { Delivers bytes.now steps.now out.old (answers (numbered result) out.new) }
{
    let mut text = [0u8; 2560];
    let p = put_formula(bytes, steps, steps.len(), 0, &mut text, 2560);
    let start = p.n;
    let size = 2560 - start;
    if out.len() < size {
        return Err(Refusal::BadSize);
    }
    out[..size].copy_from_slice(&text[start..]);
    Ok(Answer::Text(size))
}

// Answers an accepted equation, given with its steps.
fn answered(bytes: &[u8], steps: &[u16], out: &mut [u8]) -> Result<Answer, Refusal>
    requires { Accepted bytes.now steps.now }
    ensures { Replies bytes.now steps.now out.old (answers (numbered result) out.new) }
{
    let size = size_unmarked(bytes);
    if size < bytes.len() {
        return Ok(Answer::Mark);
    }
    let d = depth(steps, steps.len(), 0);
    if 16 < d.deep {
        return Ok(Answer::Deeper);
    }
    if 256 < bytes.len() {
        return Ok(Answer::Bytes);
    }
    deliver(bytes, steps, out)
}

// Writes an equation as on paper to the front of the output.
pub fn to_text(bytes: &[u8], out: &mut [u8]) -> Result<Answer, Refusal>
    ensures { answers (numbered result) out.new ≡ written_of bytes.now out.old }
{
    let mut steps = [0u16; 2047];
    let count = parse(bytes, &mut steps)?;
    answered(bytes, &steps[..count], out)
}
