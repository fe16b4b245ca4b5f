// Numbers of 16 and 32 bits in bytes, least significant byte first: what headers, equations and packets are made of; and hexadecimal digits.
// The layer promises that a number read is the one that its bytes stand for, that a number written reads back, and that a place that is too near the end
// is refused by 33 and changes nothing.
#![tactic(auto)]

ghost use Rattle.std.specs.Prelude.{◌≡◌, [], ◌∷◌, ◌+◌, ◌*◌, length};
ghost use Rattle.refusal.specs.Refusal.{number_of};
ghost use Rattle.numbers.specs.Numbers.{number, two, four, number_at, fits_at, stored_at};
ghost use Rattle.numbers.specs.Hex.{hex_digit};

use refusal::Refusal;

// The number of two bytes.
#[tactic(auto, unfolding(crate::specs::Numbers::number))]
pub fn number16(a: u8, b: u8) -> u16
    ensures { result ≡ number (a ∷ b ∷ []) }
{
    u16::from_le_bytes([a, b])
}

// The number of four bytes.
#[tactic(auto, unfolding(crate::specs::Numbers::number))]
pub fn number32(a: u8, b: u8, c: u8, d: u8) -> u32
    ensures { result ≡ number (a ∷ b ∷ c ∷ d ∷ []) }
{
    u32::from_le_bytes([a, b, c, d])
}

// The 16-bit number at a place, none where its bytes are not all there.
#[tactic(auto, using(crate::proofs::NumberLaws::short_at, crate::proofs::NumberLaws::read_at16))]
pub fn read16(bytes: &[u8], at: usize) -> Option<u32>
    ensures { result ≡ number_at 2 bytes.now at }
{
    if bytes.len() < 2 || bytes.len() - 2 < at {
        return None;
    }
    Some(number16(bytes[at], bytes[at + 1]) as u32)
}

// The 32-bit number at a place, none where its bytes are not all there.
#[tactic(auto, using(crate::proofs::NumberLaws::short_at, crate::proofs::NumberLaws::read_at32))]
pub fn read32(bytes: &[u8], at: usize) -> Option<u32>
    ensures { result ≡ number_at 4 bytes.now at }
{
    if bytes.len() < 4 || bytes.len() - 4 < at {
        return None;
    }
    Some(number32(bytes[at], bytes[at + 1], bytes[at + 2], bytes[at + 3]))
}

// Writes a 16-bit number at a place; refused by 33, and nothing written, where it does not fit.
#[tactic(auto, using(crate::proofs::NumberLaws::refused_at, crate::proofs::NumberLaws::accepted_at, crate::proofs::NumberLaws::unstored_at, crate::proofs::NumberLaws::stored_part))]
pub fn write16(out: &mut [u8], at: usize, n: u16) -> Result<(), Refusal>
    ensures value { number_of result ≡ fits_at 2 out.old at }
    ensures out_after { out.new ≡ stored_at out.old at (two n) }
{
    if out.len() < 2 || out.len() - 2 < at {
        return Err(Refusal::BadSize);
    }
    out[at..at + 2].copy_from_slice(&n.to_le_bytes());
    Ok(())
}

// Writes a 32-bit number at a place; refused by 33, and nothing written, where it does not fit.
#[tactic(auto, using(crate::proofs::NumberLaws::refused_at, crate::proofs::NumberLaws::accepted_at, crate::proofs::NumberLaws::unstored_at, crate::proofs::NumberLaws::stored_part))]
pub fn write32(out: &mut [u8], at: usize, n: u32) -> Result<(), Refusal>
    ensures value { number_of result ≡ fits_at 4 out.old at }
    ensures out_after { out.new ≡ stored_at out.old at (four n) }
{
    if out.len() < 4 || out.len() - 4 < at {
        return Err(Refusal::BadSize);
    }
    out[at..at + 4].copy_from_slice(&n.to_le_bytes());
    Ok(())
}

// Stores all of `from` in `to` from byte `at` on; refused by 33, and nothing stored, where it does not fit.
#[tactic(auto, using(crate::proofs::NumberLaws::refused_at, crate::proofs::NumberLaws::accepted_at, crate::proofs::NumberLaws::unstored_at, crate::proofs::NumberLaws::stored_none))]
pub fn store(to: &mut [u8], at: usize, from: &[u8]) -> Result<(), Refusal>
    ensures value { number_of result ≡ fits_at (length from.now) to.old at }
    ensures to_after { to.new ≡ stored_at to.old at from.now }
{
    if to.len() < from.len() || to.len() - from.len() < at {
        return Err(Refusal::BadSize);
    }
    // a loop: `copy_from_slice` becomes a call of `memmove`, and the library is to need `memcpy` and `memset` alone
    for (i, b) in from.iter().enumerate() {
        to[at + i] = *b;
    }
    Ok(())
}

// The digit of half a byte; of a larger number, that of its low half byte.
pub fn hex_digit(n: u8) -> u8
    ensures { result ≡ hex_digit n }
{
    let half = n % 16;
    if half < 10 { 48 + half } else { 87 + half }
}
