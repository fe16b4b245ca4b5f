// What the program `classday` prints for a line of `why` or `why-bytes`: why a file was or was not in the list of an equation, which is written as on paper
// or in hex. The layer promises that each line gets the line that specs/Why.antt gives it, and that nothing changes where a line can't be read.
#![tactic(auto)]

ghost use Rattle.std.specs.Prelude.{◌≡◌, ◌∷◌, ◌+◌, ◌≤◌, length, take, Ok};
ghost use Rattle.refusal.specs.Refusal.{numbered};
ghost use Rattle.why.specs.declared.Explained.{Explained};
ghost use Rattle.lines.specs.Numerals.{decimal_at};
ghost use Rattle.lines.specs.Text.{decimal_of};
ghost use Rattle.lines.specs.Lines.{printed, printed_in};
ghost use Rattle.grammar.specs.Machine.{outcome_of};
ghost use Rattle.replies.specs.Reply.{said_of, replies, replied};
ghost use Rattle.words.specs.Pieces.{Pushed, front_of};
ghost use Rattle.words.specs.Why.{number_fields, outcome_word, told_of, told_by, why_line, paper_told, hex_told, tabbed, text_reply, hex_reply, ask_in, why_reply};

use lines::numeral::{decimal, hex};
use lines::write::width;
use numbers::store;
use paper::{Answer, to_bytes};
use refusal::Refusal;
use replies::begins;
use why::{Explained, why};

// ---- pieces of a line, put behind the n bytes that it has

fn push(out: &mut [u8], n: usize, piece: &[u8]) -> usize
    requires { n + length piece.now ≤ length out.old }
    ensures { Pushed out.old n piece.now result out.new }
{
    // not refused: the piece was found to fit
    let _ = store(out, n, piece);
    n + piece.len()
}

// `replies` has the same as a private function: a public one asks nothing of its caller, and this one asks for room.
fn push_decimal(out: &mut [u8], n: usize, v: usize) -> usize
    requires { n + length (decimal_of v) ≤ length out.old }
    ensures { Pushed out.old n (decimal_of v) result out.new }
{
    let digits = width(v);
    let mut i = n + digits - 1;
    let mut rest = v;
    // a `while`: each turn takes the last digit away, and it ends where one is left
    while 9 < rest {
        out[i] = b'0' + (rest % 10) as u8;
        rest /= 10;
        i -= 1;
    }
    out[i] = b'0' + rest as u8;
    n + digits
}

// A field with a number.
fn push_number(out: &mut [u8], n: usize, v: u16) -> usize
    requires { n + length (9 ∷ decimal_of v) ≤ length out.old }
    ensures { Pushed out.old n (9 ∷ decimal_of v) result out.new }
{
    let a = push(out, n, b"\t");
    push_decimal(out, a, v as usize)
}

fn push_numbers(out: &mut [u8], n: usize, named: &[u16]) -> usize
    requires { n + length (number_fields named.now) ≤ length out.old }
    ensures { Pushed out.old n (number_fields named.now) result out.new }
{
    let mut to = n;
    for v in named {
        to = push_number(out, to, *v);
    }
    to
}

fn push_outcome(out: &mut [u8], n: usize, told: Explained) -> usize
    requires { n + length (outcome_word told) ≤ length out.old }
    ensures { Pushed out.old n (outcome_word told) result out.new }
{
    if told.beyond {
        let a = push(out, n, b"beyond\t");
        return push_decimal(out, a, told.older);
    }
    if told.matched {
        return push(out, n, b"matched");
    }
    push(out, n, b"unmatched")
}

// What stands behind the file's number; the first of the numbers are the relations named.
fn push_told(out: &mut [u8], n: usize, told: Result<Explained, Refusal>, named: &[u16]) -> usize
    requires { (n + length (told_of (numbered told) named.now) ≤ length out.old)
        × ((w : Explained) → numbered told ≡ Ok w → w.count ≤ length named.now) }
    ensures { Pushed out.old n (told_of (numbered told) named.now) result out.new }
{
    match told {
        Ok(told) => {
            let a = push_outcome(out, n, told);
            let b = push_numbers(out, a, &named[..told.count]);
            push(out, b, b"\n")
        }
        Err(refusal) => {
            let d = push(out, n, b"refused\t");
            let e = push_decimal(out, d, u8::from(refusal) as usize);
            push(out, e, b"\n")
        }
    }
}

// The word and the file's number.
fn push_front(out: &mut [u8], number: u32) -> usize
    requires { length out.old ≡ 8192 }
    ensures { Pushed out.old 0 (front_of number) result out.new }
{
    let a = push(out, 0, b"why\t");
    let b = push_decimal(out, a, number as usize);
    push(out, b, b"\t")
}

// ---- lines, at the front of a buffer

// The line for an equation's bytes.
fn why_line(
    equation: &[u8],
    number: u32,
    disk: &[u8],
    owner: &[u16],
    table: &[u32],
    most: usize,
    out: &mut [u8],
) -> usize
    requires { length out.old ≡ 8192 }
    ensures { Pushed out.old 0
        (why_line number (told_by (ask_in disk.now owner.now table.now most number equation.now))) result out.new }
{
    let mut named = [0u16; 511];
    let told = why(equation, number, disk, owner, table, most, &mut named);
    let a = push_front(out, number);
    push_told(out, a, told, &named)
}

// The line for an equation as on paper that is not turned into bytes.
fn wrong_line(equation: &[u8], number: u32, out: &mut [u8]) -> usize
    requires { length out.old ≡ 8192 }
    ensures { Pushed out.old 0 (why_line number (said_of (outcome_of equation.now))) result out.new }
{
    let a = push_front(out, number);
    let said = replies::reply_to_text(equation, &mut out[a..]);
    a + said
}

// The line for an equation as on paper. It is judged first.
fn paper_line(
    equation: &[u8],
    number: u32,
    disk: &[u8],
    owner: &[u16],
    table: &[u32],
    most: usize,
    out: &mut [u8],
) -> usize
    requires { length out.old ≡ 8192 }
    ensures { Pushed out.old 0
        (why_line number (paper_told (ask_in disk.now owner.now table.now most number) (outcome_of equation.now)))
        result out.new }
{
    let mut bytes = [0u8; 256];
    match to_bytes(equation, &mut bytes) {
        Ok(Answer::Bytes(n)) => why_line(&bytes[..n], number, disk, owner, table, most, out),
        Ok(Answer::Wrong(_, _)) => wrong_line(equation, number, out),
        Ok(Answer::Long) => wrong_line(equation, number, out),
        Err(_) => wrong_line(equation, number, out),
    }
}

// ---- replies

// 8,192 zeros, for a line; and 65,536, for the bytes of a field. The `ensures` give only the length.
fn blank_line() -> [u8; 8192]
    ensures { length result ≡ 8192 }
{
    [0u8; 8192]
}

fn blank_bytes() -> [u8; 65536]
    ensures { length result ≡ 65536 }
{
    [0u8; 65536]
}

// The first n bytes of a buffer, printed.
fn print(buffer: &[u8], n: usize, text: &mut [u8]) -> usize
    requires { n ≤ length buffer.now }
    ensures { printed result text.new ≡ printed_in (take n buffer.now) text.old }
{
    if text.len() < n {
        return 0;
    }
    // not refused: the text was found long enough
    let _ = store(text, 0, &buffer[..n]);
    n
}

fn print_why(
    equation: &[u8],
    number: u32,
    disk: &[u8],
    owner: &[u16],
    table: &[u32],
    most: usize,
    text: &mut [u8],
) -> usize
    ensures { printed result text.new ≡ printed_in
        (why_line number (told_by (ask_in disk.now owner.now table.now most number equation.now)))
        text.old }
{
    let mut buffer = blank_line();
    let n = why_line(equation, number, disk, owner, table, most, &mut buffer);
    print(&buffer, n, text)
}

fn print_paper(
    equation: &[u8],
    number: u32,
    disk: &[u8],
    owner: &[u16],
    table: &[u32],
    most: usize,
    text: &mut [u8],
) -> usize
    ensures { printed result text.new ≡ printed_in
        (why_line number (paper_told (ask_in disk.now owner.now table.now most number) (outcome_of equation.now)))
        text.old }
{
    let mut buffer = blank_line();
    let n = paper_line(equation, number, disk, owner, table, most, &mut buffer);
    print(&buffer, n, text)
}

// The number at a place, and the place behind the tab that follows it.
fn number_at(line: &[u8], at: usize) -> Option<(u32, usize)>
    ensures { result ≡ tabbed (decimal_at line.now at) line.now }
{
    let (v, next) = decimal(line, at)?;
    if next < line.len() && line[next] == b'\t' {
        return Some((v, next + 1));
    }
    None
}

// The reply to a line of `why`, behind its word.
fn reply_to_text(
    line: &[u8],
    disk: &[u8],
    owner: &[u16],
    table: &[u32],
    most: usize,
    text: &mut [u8],
) -> Option<usize>
    ensures { replies result text.new ≡ replied (text_reply (ask_in disk.now owner.now table.now most)
        line.now (tabbed (decimal_at line.now 4) line.now)) text.old }
{
    let (number, at) = number_at(line, 4)?;
    Some(print_paper(&line[at..], number, disk, owner, table, most, text))
}

// The reply for a field of hex.
fn reply_to_field(
    field: &[u8],
    number: u32,
    disk: &[u8],
    owner: &[u16],
    table: &[u32],
    most: usize,
    text: &mut [u8],
) -> Option<usize>
    ensures { replies result text.new ≡ replied (hex_told (ask_in disk.now owner.now table.now most number)
        number field.now) text.old }
{
    let mut bytes = blank_bytes();
    let n = hex(field, 0, &mut bytes)?;
    Some(print_why(&bytes[..n], number, disk, owner, table, most, text))
}

// The reply to a line of `why-bytes`, behind its word.
fn reply_to_hex(
    line: &[u8],
    disk: &[u8],
    owner: &[u16],
    table: &[u32],
    most: usize,
    text: &mut [u8],
) -> Option<usize>
    ensures { replies result text.new ≡ replied (hex_reply (ask_in disk.now owner.now table.now most)
        line.now (tabbed (decimal_at line.now 10) line.now)) text.old }
{
    let (number, at) = number_at(line, 10)?;
    reply_to_field(&line[at..], number, disk, owner, table, most, text)
}

// Answers a line of `why` or `why-bytes` from a store: its disk, the owners of its blocks, the records of its file places, and MAXSEL. Says how many bytes
// the answer has, 0 where the text is too short for it; None where the line can't be read.
pub fn answer_line(
    line: &[u8],
    disk: &[u8],
    owner: &[u16],
    table: &[u32],
    most: usize,
    text: &mut [u8],
) -> Option<usize>
    ensures { replies result text.new ≡ replied
        (why_reply disk.now owner.now table.now most line.now) text.old }
{
    if begins(line, b"why\t") {
        return reply_to_text(line, disk, owner, table, most, text);
    }
    if begins(line, b"why-bytes\t") {
        return reply_to_hex(line, disk, owner, table, most, text);
    }
    None
}
