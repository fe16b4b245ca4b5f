// The readers of sums, products and factors: they call each other in a cycle, the brackets that may still be opened (`left`) and the remaining text falling.
ghost use Rattle.std.specs.Prelude.{◌≡◌, ◌*◌, ◌≤◌, length};
ghost use Rattle.tokens.specs.Places.{Skipped};
ghost use Rattle.readings.specs.Contract.{StartRead, join_at, closed_at, FactorRead, ProductRead, SumRead};

use crate::constant::relation;
use crate::output::put;
use grammar::Reason;
use names::bytes::byte_of;
use readings::{Joiner, Reading, Start};
use tokens::Wrong;
use tokens::items::past_blanks;

// Blanks passed over, as the machine passes over them.
pub(crate) fn blanks(text: &[u8], at: usize) -> usize
    requires { at ≤ length text.now }
    ensures { Skipped text.now at result }
{
    past_blanks(text, at)
}

// What a factor begins with, where so many further brackets may be opened.
fn begins(text: &[u8], at: usize, left: u8) -> Start
    requires { at ≤ length text.now }
    ensures { StartRead text.now at left result }
{
    let q = blanks(text, at);
    if byte_of(text, q) == 40 {
        if left == 0 {
            return Start::Deep(q);
        }
        return Start::Open(q + 1);
    }
    Start::Relation(q)
}

// Whether `b` stands twice at a place.
fn join_at(text: &[u8], at: usize, b: u8) -> Joiner
    requires { at ≤ length text.now }
    ensures { result ≡ join_at text.now at b }
{
    if byte_of(text, at) == b {
        if byte_of(text, at + 1) == b {
            return Joiner::Whole;
        }
        return Joiner::Half;
    }
    Joiner::Other
}

// The bracket that closes a sum.
fn close(text: &[u8], at: usize, m: usize) -> Reading
    requires { at ≤ length text.now }
    ensures { result ≡ closed_at text.now at m }
{
    if byte_of(text, at) == 41 {
        return Ok((at + 1, m));
    }
    if at < text.len() {
        return Err(Wrong {
            at,
            reason: Reason::Connective,
        });
    }
    Err(Wrong {
        at,
        reason: Reason::Bracket,
    })
}

#[cycle(factor_product_sum)]
fn factor(text: &[u8], at: usize, left: u8, out: &mut [u8], n: usize) -> Reading
    requires { (at ≤ length text.now) × (n ≤ 2 * at) }
    ensures { FactorRead text.now at left out.old n result out.new }
{
    match begins(text, at, left) {
        Start::Deep(at) => Err(Wrong {
            at,
            reason: Reason::Deeper,
        }),
        Start::Relation(q) => relation(text, q, out, n),
        Start::Open(e) => {
            let (q, m) = sum(text, e, left - 1, out, n)?;
            close(text, q, m)
        }
    }
}

#[cycle(factor_product_sum)]
fn product(text: &[u8], at: usize, left: u8, out: &mut [u8], n: usize) -> Reading
    requires { (at ≤ length text.now) × (n ≤ 2 * at) }
    ensures { ProductRead text.now at left out.old n result out.new }
{
    let (e, k) = factor(text, at, left, out, n)?;
    let mut p = e;
    let mut m = k;
    // a `loop`: each turn goes on behind the factor that it read
    loop {
        let q = blanks(text, p);
        match join_at(text, q, 38) {
            Joiner::Other => return Ok((q, m)),
            Joiner::Half => {
                return Err(Wrong {
                    at: q + 1,
                    reason: Reason::Connective,
                });
            }
            Joiner::Whole => {
                let (y, h) = factor(text, q + 2, left, out, m)?;
                m = put(out, h, 1);
                p = y;
            }
        }
    }
}

#[cycle(factor_product_sum)]
pub(crate) fn sum(text: &[u8], at: usize, left: u8, out: &mut [u8], n: usize) -> Reading
    requires { (at ≤ length text.now) × (n ≤ 2 * at) }
    ensures { SumRead text.now at left out.old n result out.new }
{
    let (e, k) = product(text, at, left, out, n)?;
    let mut p = e;
    let mut m = k;
    // a `loop`: each turn goes on behind the product that it read
    loop {
        match join_at(text, p, 124) {
            Joiner::Other => return Ok((p, m)),
            Joiner::Half => {
                return Err(Wrong {
                    at: p + 1,
                    reason: Reason::Connective,
                });
            }
            Joiner::Whole => {
                let (y, h) = product(text, p + 2, left, out, m)?;
                m = put(out, h, 2);
                p = y;
            }
        }
    }
}
