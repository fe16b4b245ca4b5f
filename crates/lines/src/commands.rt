// A script's line: its command, and the bytes of an `rx` line.
ghost use Rattle.std.specs.Prelude.{◌≡◌, ◌≤◌, ◌==◌, length, drop, position};
ghost use Rattle.lines.specs.Numerals.{decimal_at};
ghost use Rattle.lines.specs.Commands.{same, ends_at, command_of_two, reads, read_of};
ghost use Rattle.lines.specs.Reading.{field_end, rx_read};

use crate::numeral::{decimal, hex};

// A line's command: the clock, or the session; for `rx` also how many bytes it has.
#[derive(Clone, Copy)]
pub enum Command {
    Unreadable,
    Time(u32),
    Open(u32),
    Drop(u32),
    Rx(u32, usize),
}

// Two texts are the same.
fn same_text(x: &[u8], y: &[u8]) -> bool
    ensures { result ≡ same x.now y.now }
{
    x == y
}

// The place of the first TAB.
fn first_tab(bytes: &[u8]) -> Option<usize>
    ensures { result ≡ position (λ b. b == 9) bytes.now }
{
    bytes.iter().position(|b| *b == 9)
}

// The place of the first TAB from a place on, or the line's end.
fn field_end(line: &[u8], at: usize) -> usize
    requires { at ≤ length line.now }
    ensures { result ≡ field_end line.now at }
{
    match first_tab(&line[at..]) {
        Some(n) => at + n,
        None => line.len(),
    }
}

// The number from a place on, if it ends at `end`.
fn number_to(line: &[u8], at: usize, end: usize) -> Option<u32>
    ensures { result ≡ ends_at (decimal_at line.now at) end }
{
    let (value, next) = decimal(line, at)?;
    if next == end { Some(value) } else { None }
}

// The command of two fields.
fn command_of_two(name: &[u8], number: Option<u32>) -> Command
    ensures { result ≡ command_of_two name.now number }
{
    let Some(value) = number else {
        return Command::Unreadable;
    };
    if same_text(name, b"time") {
        return Command::Time(value);
    }
    if same_text(name, b"open") {
        return Command::Open(value);
    }
    if same_text(name, b"drop") {
        return Command::Drop(value);
    }
    Command::Unreadable
}

// The command `rx` of a session, with hex from a place of the line on.
fn read_rx(name: &[u8], session: u32, line: &[u8], at: usize, bytes: &mut [u8]) -> Command
    ensures { reads result bytes.new ≡ rx_read name.now session (drop at line.now) bytes.old }
{
    if !same_text(name, b"rx") {
        return Command::Unreadable;
    }
    match hex(line, at, bytes) {
        None => Command::Unreadable,
        Some(count) => Command::Rx(session, count),
    }
}

// Reads a line, given without its newline. The bytes of an `rx` line stand at the front of `bytes`; else nothing has changed there.
pub fn read(line: &[u8], bytes: &mut [u8]) -> Command
    ensures { reads result bytes.new ≡ read_of line.now bytes.old }
{
    let first = field_end(line, 0);
    if line.len() <= first {
        return Command::Unreadable;
    }
    let second = field_end(line, first + 1);
    let number = number_to(line, first + 1, second);
    let name = &line[..first];
    if line.len() <= second {
        return command_of_two(name, number);
    }
    let Some(session) = number else {
        return Command::Unreadable;
    };
    read_rx(name, session, line, second + 1, bytes)
}
