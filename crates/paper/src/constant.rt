// Constants and whole relations, read at a place and written behind the n bytes that the output has.
ghost use Rattle.std.specs.Prelude.{◌≡◌, true, false, [], ◌∷◌, ◌+◌, ◌*◌, ◌≤◌, ◌<◌, length, get_or};
ghost use Rattle.lines.specs.Numerals.{digit};
ghost use Rattle.names.specs.Kinds.{is_blank};
ghost use Rattle.equation.specs.Symbols.{stars_in};
ghost use Rattle.readings.specs.Contract.{StringRead, StringConstantRead, ConstantRead, RelationRead};

use crate::output::{put, put_at, put_head, put_number};
use crate::sums::blanks;
use grammar::{Comparison, Reason};
use names::bytes::{byte_of, is_digit};
use readings::Reading;
use tokens::Wrong;
use tokens::amounts::number_at;
use tokens::items::item_at;
use tokens::signs::{is_equality, operator_number, sign_at};
use tokens::strings::{Character, character_at};

// A number from its first digit on.
fn number(text: &[u8], at: usize, id: u16, c: Comparison, out: &mut [u8], n: usize) -> Reading
    requires { (at ≤ length text.now) × (n + 12 ≤ 2 * at) × (digit (get_or text.now at 0) ≡ true) }
    ensures { ConstantRead text.now at id c out.old n result out.new }
{
    let (v, size, q) = number_at(text, at, id)?;
    let m = put_head(out, n, 128 + 16 * operator_number(c), id, size);
    let k = put_number(out, m, size, v);
    Ok((q, k))
}

// The number of stars, with a further byte.
#[tactic(auto, unfolding(equation::specs::Symbols::stars_in))]
fn counted(stars: usize, b: u8) -> usize
    requires { stars < 18446744073709551615 }
    ensures { result ≡ stars + stars_in (b ∷ []) }
{
    if b == b'*' { stars + 1 } else { stars }
}

// A string's characters up to its end.
fn characters(text: &[u8], at: usize, out: &mut [u8], n: usize) -> Reading
    requires { (at ≤ length text.now) × (n ≤ 2 * at) }
    ensures { StringRead text.now at out.old n result out.new }
{
    let mut p = at;
    let mut m = n;
    let mut stars = 0;
    // a `loop`: each turn goes on behind the character that it read, and one may be two bytes long
    loop {
        match character_at(text, p, m - n, stars) {
            Character::End => return Ok((p + 1, m)),
            Character::Wrong(at, reason) => return Err(Wrong { at, reason }),
            Character::Is(b, e) => {
                m = put(out, m, b);
                p = e;
                stars = counted(stars, b);
            }
        }
    }
}

// A string from behind its first '"' on. Its length is known at its end.
fn string_at(text: &[u8], at: usize, id: u16, c: Comparison, out: &mut [u8], n: usize) -> Reading
    requires { (at ≤ length text.now) × (n + 12 ≤ 2 * at) }
    ensures { StringConstantRead text.now at id c out.old n result out.new }
{
    let m = put_head(out, n, 131 + 16 * operator_number(c), id, 0);
    let (e, k) = characters(text, at, out, m)?;
    put_at(out, n + 3, (k - m) as u8);
    Ok((e, k))
}

// The constant at a place at which no blank stands.
fn constant_at(text: &[u8], at: usize, id: u16, c: Comparison, out: &mut [u8], n: usize) -> Reading
    requires { (at ≤ length text.now) × (n + 12 ≤ 2 * at) × (is_blank (get_or text.now at 0) ≡ false) }
    ensures { ConstantRead text.now at id c out.old n result out.new }
{
    let b = byte_of(text, at);
    if is_digit(b) {
        return number(text, at, id, c, out, n);
    }
    if b == 34 {
        if is_equality(c) {
            return string_at(text, at + 1, id, c, out, n);
        }
        return Err(Wrong {
            at,
            reason: Reason::Order,
        });
    }
    Err(Wrong {
        at,
        reason: Reason::Constant,
    })
}

// The relation at a place at which neither a blank nor a bracket stands.
pub(crate) fn relation(text: &[u8], at: usize, out: &mut [u8], n: usize) -> Reading
    requires { (at ≤ length text.now) × (n ≤ 2 * at) × (is_blank (get_or text.now at 0) ≡ false) × (get_or text.now at 0 ≡ 40 → ⊥) }
    ensures { RelationRead text.now at out.old n result out.new }
{
    match item_at(text, at) {
        Err(at) => Err(Wrong {
            at,
            reason: Reason::Item,
        }),
        Ok((id, e)) => {
            let q = blanks(text, e);
            match sign_at(text, q) {
                Err(at) => Err(Wrong {
                    at,
                    reason: Reason::Operator,
                }),
                Ok((c, k)) => {
                    let d = blanks(text, k);
                    constant_at(text, d, id, c, out, n)
                }
            }
        }
    }
}
