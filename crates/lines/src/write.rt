// Pieces of a line written at a place of the text: decimal numbers, hex bytes.
ghost use Rattle.std.specs.Prelude.{◌≡◌, ◌+◌, ◌*◌, ◌≤◌, length};
ghost use Rattle.std.proofs.lemmas.List.Edits.{sets};
ghost use Rattle.lines.specs.Text.{decimal_of, hex_of};

use numbers::hex_digit;

// How many decimal digits a number has.
pub fn width(n: usize) -> usize
    ensures { result ≡ length (decimal_of n) }
{
    let mut digits = 1;
    let mut rest = n;
    // a `while`: each turn takes a tenth of what is left
    while 9 < rest {
        rest /= 10;
        digits += 1;
    }
    digits
}

// Writes a number's decimal digits from byte `at` on, the last digit first, `digits` of them.
pub(crate) fn put_decimal(text: &mut [u8], at: usize, digits: usize, n: usize)
    requires digits_value { digits ≡ length (decimal_of n) }
    requires digits_in_bounds { at + digits ≤ length text.old }
    ensures { text.new ≡ sets text.old at (decimal_of n) }
{
    let mut i = at + digits - 1;
    let mut rest = n;
    // a `while`: each turn writes the last digit of what is left and takes its tenth
    while 9 < rest {
        text[i] = 48 + (rest % 10) as u8;
        rest /= 10;
        i -= 1;
    }
    text[i] = 48 + rest as u8;
}

// Writes bytes in hex from byte `at` on.
pub(crate) fn put_hex(text: &mut [u8], at: usize, bytes: &[u8])
    requires { at + 2 * length bytes.now ≤ length text.old }
    ensures { text.new ≡ sets text.old at (hex_of bytes.now) }
{
    for (i, b) in bytes.iter().enumerate() {
        text[at + 2 * i] = hex_digit(b / 16);
        text[at + 2 * i + 1] = hex_digit(b % 16);
    }
}
