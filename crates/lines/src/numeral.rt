// Decimal and hex numbers read at a place of a line.
ghost use Rattle.std.specs.Prelude.{◌≡◌, ◌+◌, ◌*◌, ◌/◌, ◌<◌, ◌≤◌, true, map, length, drop, Some, None, if◌then◌else◌, nat_eq};
ghost use Rattle.std.proofs.lemmas.List.Edits.{sets};
ghost use Rattle.lines.specs.Numerals.{digit, decimal_at, hex_value, is_hex, bytes_in, hex_read, hex_in};
ghost use Rattle.lines.specs.Pairs.{all_hex, pairs_in, pair_byte};

use std::num::wrapping_sub_u8;

// A byte is a decimal digit.
fn is_digit(b: u8) -> bool
    ensures { result ≡ digit b }
{
    48 <= b && b < 58
}

// A value with the place behind its digits, which began at `at`: none where no digit stands there.
fn ended(value: u64, at: usize, end: usize) -> Option<(u32, usize)>
    requires { value ≤ 4294967295 }
    ensures { result ≡ (if nat_eq at end then None else Some (value, end)) }
{
    if at == end {
        None
    } else {
        Some((value as u32, end))
    }
}

// The decimal number at a place, as many digits as stand there, and the place behind its last digit. None where no digit stands there or 32 bits are
// passed.
pub fn decimal(line: &[u8], at: usize) -> Option<(u32, usize)>
    ensures { result ≡ decimal_at line.now at }
{
    let mut value: u64 = 0;
    for i in at..line.len() {
        let b = line[i];
        if !is_digit(b) {
            return ended(value, at, i);
        }
        value = 10 * value + (b - 48) as u64;
        if 4294967295 < value {
            return None;
        }
    }
    ended(value, at, at.max(line.len()))
}

// The value of a lower-case hex digit, 16 for any other byte. The differences wrap, so that nothing hangs on the order of the tests: a script has
// very many digits, and this needs no branch.
fn hex_value(b: u8) -> u8
    ensures { result ≡ hex_value b }
{
    let d = wrapping_sub_u8(b, 48);
    let l = wrapping_sub_u8(b, 97);
    if d < 10 {
        d
    } else if l < 6 {
        10 + l
    } else {
        16
    }
}

// Only hex digits. All are looked at, with no early end: the largest value of many bytes is found at once.
fn has_digits(digits: &[u8]) -> bool
    ensures { result ≡ all_hex digits.now }
{
    let mut most: u8 = 0;
    for b in digits {
        most = most.max(hex_value(*b));
    }
    most < 16
}

// From a place to the end of the line stand pairs of hex digits.
fn has_pairs(line: &[u8], at: usize) -> bool
    ensures { result ≡ is_hex (drop at line.now) }
{
    if line.len() <= at {
        return true;
    }
    let digits = &line[at..];
    digits.len() % 2 == 0 && has_digits(digits)
}

// Two digits as one number.
fn pair_of(a: u8, b: u8) -> u16
    ensures { result ≡ a + 256 * b }
{
    a as u16 + 256 * (b as u16)
}

// The byte of a pair of digits.
fn pair_byte(pair: u16) -> u8
    ensures { result ≡ pair_byte pair }
{
    let a = pair % 256;
    let b = pair / 256;
    ((16 * (a % 16 + 9 * (a / 64)) + (b % 16 + 9 * (b / 64))) % 256) as u8
}

// The pairs of digits as numbers, which lie in memory as the digits do.
fn pair_up(digits: &[u8], pairs: &mut [u16])
    requires { length digits.now ≡ 2 * length pairs.old }
    ensures { pairs.new ≡ pairs_in digits.now }
{
    for (k, pair) in pairs.iter_mut().enumerate() {
        *pair = pair_of(digits[2 * k], digits[2 * k + 1]);
    }
}

// Writes the bytes of pairs from byte `at` on.
fn put_bytes(pairs: &[u16], bytes: &mut [u8], at: usize)
    requires { at + length pairs.now ≤ length bytes.old }
    ensures { bytes.new ≡ sets bytes.old at (map pair_byte pairs.now) }
{
    for (k, pair) in pairs.iter().enumerate() {
        bytes[at + k] = pair_byte(*pair);
    }
}

// Writes the bytes of at most 128 pairs of digits from byte `at` on.
fn put_piece(digits: &[u8], bytes: &mut [u8], at: usize)
    requires { (is_hex digits.now ≡ true) × (length digits.now ≤ 256) × (at + length digits.now / 2 ≤ length bytes.old) }
    ensures { bytes.new ≡ sets bytes.old at (bytes_in digits.now) }
{
    let n = digits.len() / 2;
    let mut pairs = [0u16; 128];
    pair_up(digits, &mut pairs[..n]);
    put_bytes(&pairs[..n], bytes, at);
}

// How many of the pairs left are written at once.
fn piece(left: usize) -> usize
    requires { 1 < left }
    ensures { (0 < result) × (result ≤ 128) × (2 * result ≤ left) }
{
    (left / 2).min(128)
}

// Writes the bytes of the pairs of hex digits from a place on to the front of `bytes`.
fn put_pairs(line: &[u8], at: usize, bytes: &mut [u8])
    requires line_value { is_hex (drop at line.now) ≡ true }
    requires line_in_bounds { length (bytes_in (drop at line.now)) ≤ length bytes.old }
    ensures { bytes.new ≡ sets bytes.old 0 (bytes_in (drop at line.now)) }
{
    let mut i = at;
    let mut k = 0;
    // a `while`: each turn goes on behind the piece that it wrote
    while i < line.len() {
        let n = piece(line.len() - i);
        put_piece(&line[i..i + 2 * n], bytes, k);
        i += 2 * n;
        k += n;
    }
}

// Reads the pairs of hex digits from a place to the end of the line: how many bytes they are, which stand at the front of `bytes`. None where other than
// pairs of digits stand there, or the bytes do not fit; then nothing has changed.
pub fn hex(line: &[u8], at: usize, bytes: &mut [u8]) -> Option<usize>
    ensures { hex_read result bytes.new ≡ hex_in (drop at line.now) bytes.old }
{
    if line.len() <= at {
        return Some(0);
    }
    let count = (line.len() - at) / 2;
    if bytes.len() < count {
        return None;
    }
    if !has_pairs(line, at) {
        return None;
    }
    put_pairs(line, at, bytes);
    Some(count)
}
