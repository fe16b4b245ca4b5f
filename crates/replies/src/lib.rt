// What the program `equations` prints for a line: an equation as on paper turned into its bytes, or bytes written back as on paper. The layer promises that
// each line gets the line that specs/Reply.antt gives it.
#![tactic(auto)]

ghost use Rattle.std.specs.Prelude.{◌≡◌, ◌+◌, ◌*◌, ◌≤◌, leb, length, take};
ghost use Rattle.std.proofs.lemmas.List.Edits.{sets};
ghost use Rattle.lines.specs.Numerals.{bytes_in};
ghost use Rattle.lines.specs.Text.{decimal_of, hex_of};
ghost use Rattle.lines.specs.Lines.{printed, printed_in};
ghost use Rattle.names.specs.Names.{begins_with};
ghost use Rattle.grammar.specs.Machine.{outcome_of};
ghost use Rattle.back.specs.Answer.{written_of};
ghost use Rattle.replies.specs.Reply.{bytes_line, wrong_line, refused_line, text_line, said_of, told_by, room, hex_reply, replies, replied, reply_of};
ghost use Rattle.replies.specs.Words.{word_for};

use back::to_text;
use grammar::Reason;
use lines::numeral::hex;
use lines::write::width;
use numbers::{hex_digit, store};
use paper::to_bytes;

// A reason's word: the first `size` of the bytes, the others zero.
#[derive(Clone, Copy)]
pub struct Word {
    bytes: [u8; 10],
    size: usize,
}

fn word_of(why: Reason) -> Word
    ensures { result ≡ word_for why }
{
    match why {
        Reason::Item => Word {
            bytes: *b"item\0\0\0\0\0\0",
            size: 4,
        },
        Reason::Deeper => Word {
            bytes: *b"deeper\0\0\0\0",
            size: 6,
        },
        Reason::Operator => Word {
            bytes: *b"operator\0\0",
            size: 8,
        },
        Reason::Order => Word {
            bytes: *b"order\0\0\0\0\0",
            size: 5,
        },
        Reason::Constant => Word {
            bytes: *b"constant\0\0",
            size: 8,
        },
        Reason::Large => Word {
            bytes: *b"large\0\0\0\0\0",
            size: 5,
        },
        Reason::Width => Word {
            bytes: *b"width\0\0\0\0\0",
            size: 5,
        },
        Reason::String => Word {
            bytes: *b"string\0\0\0\0",
            size: 6,
        },
        Reason::Stars => Word {
            bytes: *b"stars\0\0\0\0\0",
            size: 5,
        },
        Reason::Long => Word {
            bytes: *b"long\0\0\0\0\0\0",
            size: 4,
        },
        Reason::Connective => Word {
            bytes: *b"connective",
            size: 10,
        },
        Reason::Bracket => Word {
            bytes: *b"bracket\0\0\0",
            size: 7,
        },
    }
}

// ---- pieces of a line, put behind the n bytes that it has

fn push(out: &mut [u8], n: usize, piece: &[u8]) -> usize
    requires { n + length piece.now ≤ length out.old }
    ensures value { result ≡ n + length piece.now }
    ensures out_after { out.new ≡ sets out.old n piece.now }
{
    // not refused: the piece was found to fit
    let _ = store(out, n, piece);
    n + piece.len()
}

fn push_hex(out: &mut [u8], n: usize, bytes: &[u8]) -> usize
    requires { n + 2 * length bytes.now ≤ length out.old }
    ensures value { result ≡ n + 2 * length bytes.now }
    ensures out_after { out.new ≡ sets out.old n (hex_of bytes.now) }
{
    for (i, b) in bytes.iter().enumerate() {
        out[n + 2 * i] = hex_digit(b / 16);
        out[n + 2 * i + 1] = hex_digit(b % 16);
    }
    n + 2 * bytes.len()
}

fn push_decimal(out: &mut [u8], n: usize, v: usize) -> usize
    requires { n + length (decimal_of v) ≤ length out.old }
    ensures value { result ≡ n + length (decimal_of v) }
    ensures out_after { out.new ≡ sets out.old n (decimal_of v) }
{
    let digits = width(v);
    let mut i = n + digits - 1;
    let mut rest = v;
    // a `while`: each turn writes the last digit of what is left and takes its tenth
    while 9 < rest {
        out[i] = 48 + (rest % 10) as u8;
        rest /= 10;
        i -= 1;
    }
    out[i] = 48 + rest as u8;
    n + digits
}

// ---- the printed lines, at the front of a buffer

fn bytes_line(bytes: &[u8], out: &mut [u8]) -> usize
    requires { (length bytes.now ≤ 256) × (length out.old ≡ 4096) }
    ensures value { result ≡ length (bytes_line bytes.now) }
    ensures out_after { out.new ≡ sets out.old 0 (bytes_line bytes.now) }
{
    let a = push(out, 0, b"bytes\t");
    let b = push_hex(out, a, bytes);
    push(out, b, b"\n")
}

fn wrong_line(place: usize, why: Reason, out: &mut [u8]) -> usize
    requires { length out.old ≡ 4096 }
    ensures value { result ≡ length (wrong_line place why) }
    ensures out_after { out.new ≡ sets out.old 0 (wrong_line place why) }
{
    let word = word_of(why);
    let letters = word.bytes;
    let size = word.size;
    let a = push(out, 0, b"wrong\t");
    let b = push_decimal(out, a, place);
    let c = push(out, b, b"\t");
    let d = push(out, c, &letters[..size]);
    push(out, d, b"\n")
}

fn refused_line(word: &[u8], out: &mut [u8]) -> usize
    requires { (length word.now ≤ 20) × (length out.old ≡ 4096) }
    ensures value { result ≡ length (refused_line word.now) }
    ensures out_after { out.new ≡ sets out.old 0 (refused_line word.now) }
{
    let a = push(out, 0, b"refused\t");
    let b = push(out, a, word);
    push(out, b, b"\n")
}

fn refused_by(number: u8, out: &mut [u8]) -> usize
    requires { length out.old ≡ 4096 }
    ensures value { result ≡ length (refused_line (decimal_of number)) }
    ensures out_after { out.new ≡ sets out.old 0 (refused_line (decimal_of number)) }
{
    let a = push(out, 0, b"refused\t");
    let b = push_decimal(out, a, number as usize);
    push(out, b, b"\n")
}

fn text_line(text: &[u8], out: &mut [u8]) -> usize
    requires { (length text.now ≤ 4000) × (length out.old ≡ 4096) }
    ensures value { result ≡ length (text_line text.now) }
    ensures out_after { out.new ≡ sets out.old 0 (text_line text.now) }
{
    let a = push(out, 0, b"text\t");
    let b = push(out, a, text);
    push(out, b, b"\n")
}

// The first n bytes of a buffer, printed.
fn print(buffer: &[u8], n: usize, text: &mut [u8]) -> usize
    requires { n ≤ length buffer.now }
    ensures { printed result text.new ≡ printed_in (take n buffer.now) text.old }
{
    if text.len() < n {
        return 0;
    }
    // not refused: the text was found long enough
    let _ = store(text, 0, &buffer[..n]);
    n
}

// ---- replies

// The line for an equation as on paper, in a buffer.
fn paper_line(equation: &[u8], out: &mut [u8]) -> usize
    requires { length out.old ≡ 4096 }
    ensures value { result ≡ length (said_of (outcome_of equation.now)) }
    ensures out_after { out.new ≡ sets out.old 0 (said_of (outcome_of equation.now)) }
{
    let mut bytes = [0u8; 256];
    match to_bytes(equation, &mut bytes) {
        Ok(paper::Answer::Bytes(n)) => bytes_line(&bytes[..n], out),
        Ok(paper::Answer::Wrong(place, why)) => wrong_line(place, why, out),
        Ok(paper::Answer::Long) => refused_line(b"bytes", out),
        Err(refusal) => refused_by(u8::from(refusal), out),
    }
}

// The line for an equation in bytes, in a buffer.
fn equation_line(equation: &[u8], out: &mut [u8]) -> usize
    requires { length out.old ≡ 4096 }
    ensures value { result ≡ length (told_by (written_of equation.now room)) }
    ensures out_after { out.new ≡ sets out.old 0 (told_by (written_of equation.now room)) }
{
    let mut text = [0u8; 4000];
    match to_text(equation, &mut text) {
        Ok(back::Answer::Text(n)) => text_line(&text[..n], out),
        Err(refusal) => refused_by(u8::from(refusal), out),
        Ok(back::Answer::Mark) => refused_line(b"mark", out),
        Ok(back::Answer::Deeper) => refused_line(b"deeper", out),
        Ok(back::Answer::Bytes) => refused_line(b"bytes", out),
    }
}

// Zeros, for the bytes of a line: 65,536, and 2,047, the most that an equation has. The `ensures` gives only the length.
fn blank_bytes() -> [u8; 65536]
    ensures { length result ≡ 65536 }
{
    [0u8; 65536]
}

fn blank_equation() -> [u8; 2047]
    ensures { length result ≡ 2047 }
{
    [0u8; 2047]
}

// Whether a line begins with a word.
pub fn begins(line: &[u8], word: &[u8]) -> bool
    ensures { result ≡ begins_with word.now line.now }
{
    line.starts_with(word)
}

// 4,096 zeros, for a line. The `ensures` gives only the length.
fn blank_line() -> [u8; 4096]
    ensures { length result ≡ 4096 }
{
    [0u8; 4096]
}

// The line for an equation as on paper: how many bytes it has, or 0 where the text is too short for it.
pub fn reply_to_text(equation: &[u8], text: &mut [u8]) -> usize
    ensures { printed result text.new ≡ printed_in (said_of (outcome_of equation.now)) text.old }
{
    let mut buffer = blank_line();
    let n = paper_line(equation, &mut buffer);
    print(&buffer, n, text)
}

// The line for an equation in bytes.
fn reply_to_bytes(equation: &[u8], text: &mut [u8]) -> usize
    ensures { printed result text.new ≡ printed_in (told_by (written_of equation.now room)) text.old }
{
    let mut buffer = blank_line();
    let n = equation_line(equation, &mut buffer);
    print(&buffer, n, text)
}

// The line for an equation that is written in hex, with a buffer for its bytes that has room where one of 65,536 has: how many bytes it has, or 0 where the
// text is too short for it. None where the field is not hex.
fn reply_in(field: &[u8], bytes: &mut [u8], text: &mut [u8]) -> Option<usize>
    requires { leb (length (bytes_in field.now)) (length bytes.old) ≡ leb (length (bytes_in field.now)) 65536 }
    ensures { replies result text.new ≡ replied (hex_reply field.now) text.old }
{
    let n = hex(field, 0, bytes)?;
    Some(reply_to_bytes(&bytes[..n], text))
}

// The line for an equation that is written in hex. Most are short, and a buffer of 65,536 bytes takes longer to make than their line.
fn reply_to_hex(field: &[u8], text: &mut [u8]) -> Option<usize>
    ensures { replies result text.new ≡ replied (hex_reply field.now) text.old }
{
    if field.len() < 4096 {
        let mut short = blank_equation();
        return reply_in(field, &mut short, text);
    }
    let mut bytes = blank_bytes();
    reply_in(field, &mut bytes, text)
}

// Answers a line of the program: how many bytes the answer has, which stands at the front of the text, or 0 where the text is too short for it. None where
// the line can't be read.
pub fn answer_line(line: &[u8], text: &mut [u8]) -> Option<usize>
    ensures { replies result text.new ≡ reply_of line.now text.old }
{
    if begins(line, b"text\t") {
        if 5 <= line.len() {
            return Some(reply_to_text(&line[5..], text));
        }
        return None;
    }
    if begins(line, b"bytes\t") {
        if 6 <= line.len() {
            return reply_to_hex(&line[6..], text);
        }
        return None;
    }
    None
}
