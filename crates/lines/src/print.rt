// The printed lines, each at the front of a text lent for it.
ghost use Rattle.std.specs.Prelude.{◌≡◌, ◌≤◌, length};
ghost use Rattle.lines.specs.Lines.{printed, printed_in, sent_line, packet_line, closed_line, refused_line, error_line, blocks_line};

use crate::write::{put_decimal, put_hex, width};
use numbers::store;
use packet::names::name_of;

// The line of a link that the server closed: how many bytes it has, or 0 where the text is too short for it.
pub fn closed_line(session: u32, text: &mut [u8]) -> usize
    ensures { printed result text.new ≡ printed_in (closed_line session) text.old }
{
    let n = session as usize;
    let digits = width(n);
    let size = digits + 8;
    if text.len() < size {
        return 0;
    }
    put_decimal(text, 0, digits, n);
    // not refused: `size` counts these bytes
    let _ = store(text, digits, b"\tclosed\n");
    size
}

// The line of a local refusal: how many bytes it has, or 0 where the text is too short for it.
pub fn refused_line(session: u32, number: u8, text: &mut [u8]) -> usize
    ensures { printed result text.new ≡ printed_in (refused_line session number) text.old }
{
    let n = session as usize;
    let k = number as usize;
    let first = width(n);
    let second = width(k);
    let at = first + 9;
    let size = at + second + 1;
    if text.len() < size {
        return 0;
    }
    put_decimal(text, 0, first, n);
    // not refused: `size` counts these bytes
    let _ = store(text, first, b"\trefused\t");
    put_decimal(text, at, second, k);
    text[size - 1] = 10;
    size
}

// The line of a script's line that can't be read: how many bytes it has, or 0 where the text is too short for it.
pub fn error_line(number: usize, text: &mut [u8]) -> usize
    ensures { printed result text.new ≡ printed_in (error_line number) text.old }
{
    let digits = width(number);
    let size = 7 + digits;
    if text.len() < size {
        return 0;
    }
    // not refused: `size` counts these bytes
    let _ = store(text, 0, b"error\t");
    put_decimal(text, 6, digits, number);
    text[size - 1] = 10;
    size
}

// The last line, free and held blocks: how many bytes it has, or 0 where the text is too short for it.
pub fn blocks_line(free: usize, held: usize, text: &mut [u8]) -> usize
    ensures { printed result text.new ≡ printed_in (blocks_line free held) text.old }
{
    let first = width(free);
    let second = width(held);
    let at = 8 + first;
    let size = at + second + 1;
    if text.len() < size {
        return 0;
    }
    // not refused: `size` counts these bytes
    let _ = store(text, 0, b"blocks\t");
    put_decimal(text, 7, first, free);
    text[at - 1] = 9;
    put_decimal(text, at, second, held);
    text[size - 1] = 10;
    size
}

// The line of a packet: how many bytes it has, or 0 where the text is too short for it or the packet has no line.
pub fn packet_line(session: u32, packet: &[u8], text: &mut [u8]) -> usize
    ensures { printed result text.new ≡ printed_in (packet_line session packet.now) text.old }
{
    if packet.len() < 2 {
        return 0;
    }
    if 258 < packet.len() {
        return 0;
    }
    let kind = packet[1] % 32;
    if 17 < kind {
        return 0;
    }
    sent_line(session, kind, &packet[2..], text)
}

// The same of a packet's type and information.
fn sent_line(session: u32, kind: u8, info: &[u8], text: &mut [u8]) -> usize
    requires { length info.now ≤ 256 }
    ensures { printed result text.new ≡ printed_in (sent_line session kind info.now) text.old }
{
    let n = session as usize;
    let digits = width(n);
    let name = name_of(kind);
    let letters = name.size;
    let at = digits + letters + 2;
    let size = at + 2 * info.len() + 1;
    if text.len() < size {
        return 0;
    }
    put_decimal(text, 0, digits, n);
    text[digits] = 9;
    let bytes = name.bytes;
    // not refused: `size` counts these bytes
    let _ = store(text, digits + 1, &bytes[..letters]);
    text[at - 1] = 9;
    put_hex(text, at, info);
    text[size - 1] = 10;
    size
}
