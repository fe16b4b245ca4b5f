// Bytes put one after the other into a buffer, as far as it has room; and the result's delivery.
ghost use Rattle.std.specs.Prelude.{◌≡◌, true, ◌++◌, [], ◌∷◌, ◌+◌, ◌≤◌, ◌<◌, length, set, take, drop};
ghost use Rattle.std.proofs.lemmas.List.Edits.{sets};
ghost use Rattle.numbers.specs.Numbers.{two, four};
ghost use Rattle.equation.specs.Relation.{width};
ghost use Rattle.refusal.specs.Refusal.{numbered};
ghost use Rattle.paper.specs.Answer.{answers, delivered_from};

use crate::Answer;
use refusal::Refusal;

// A further byte, where there is room for it; and how many there are then.
pub(crate) fn put(out: &mut [u8], n: usize, b: u8) -> usize
    requires { n < 18446744073709551615 }
    ensures value { result ≡ n + 1 }
    ensures out_after { out.new ≡ set out.old n b }
{
    if n < out.len() {
        out[n] = b;
    }
    n + 1
}

// Another byte at a place, where there is room for it.
pub(crate) fn put_at(out: &mut [u8], n: usize, b: u8)
    ensures { out.new ≡ set out.old n b }
{
    if n < out.len() {
        out[n] = b;
    }
}

// What stands before a relation's constant: its code, its id and the constant's length.
pub(crate) fn put_head(out: &mut [u8], n: usize, code: u8, id: u16, size: u8) -> usize
    requires { n < 18446744073709551606 }
    ensures value { result ≡ n + 4 }
    ensures out_after { out.new ≡ sets out.old n (code ∷ (two id ++ (size ∷ []))) }
{
    let a = put(out, n, code);
    let b = put(out, a, (id % 256) as u8);
    let c = put(out, b, (id / 256 % 256) as u8);
    put(out, c, size)
}

// A number of 1, 2 or 4 bytes.
pub(crate) fn put_number(out: &mut [u8], n: usize, size: u8, v: u32) -> usize
    requires { (n < 18446744073709551610) × (width size ≡ true) }
    ensures value { result ≡ n + size }
    ensures out_after { out.new ≡ sets out.old n (take size (four v)) }
{
    let a = put(out, n, (v % 256) as u8);
    if size == 1 {
        return a;
    }
    let b = put(out, a, (v / 256 % 256) as u8);
    if size == 2 {
        return b;
    }
    let c = put(out, b, (v / 65536 % 256) as u8);
    put(out, c, (v / 16777216 % 256) as u8)
}

// The first m bytes of a buffer, delivered.
#[tactic(auto, unfolding(crate::specs::Answer::delivered_from))]
pub(crate) fn deliver(bytes: &[u8], m: usize, out: &mut [u8]) -> Result<Answer, Refusal>
    requires { length bytes.now ≡ 256 }
    ensures { answers (numbered result) out.new ≡ delivered_from bytes.now m out.old }
{
    if 256 < m {
        return Ok(Answer::Long);
    }
    if out.len() < m {
        return Err(Refusal::BadSize);
    }
    out[..m].copy_from_slice(&bytes[..m]);
    Ok(Answer::Bytes(m))
}
