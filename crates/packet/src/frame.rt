// The framing of one link. The bytes of an unfinished packet stay in a part of 258 bytes that the caller keeps for the link.
ghost use Rattle.std.specs.Prelude.{◌≡◌, ◌+◌, ◌<◌, ◌≤◌, length, take, drop, replicate};
ghost use Rattle.packet.specs.Packet.{announced};
ghost use Rattle.packet.specs.Frame.{padded, without_packet, heard, receive_of};
ghost use Rattle.packet.specs.Feed.{mark_of, wanted_of, least_of, fed_in, feed_of};

use numbers::store;

// What the bytes came to.
#[derive(Clone, Copy)]
pub enum Frame {
    // The packet is not at its end.
    Open,
    // The announced length is above 256.
    TooLong,
    // A whole packet: its type and its information's length.
    Whole(u8, usize),
    // A part that is no link's. A case like the others, and no error: `decide` answers each of the four.
    Refused(u8),
}

// The answer of a call: how many bytes it took, how many the part holds now, and a whole packet's information, padded with zeros.
#[derive(Clone, Copy)]
pub struct Framed {
    pub taken: usize,
    pub held: usize,
    pub frame: Frame,
    pub info: [u8; 256],
}

// What the first bytes of a part come to: more is wanted, the announced length is too long, or they end a packet.
#[derive(Clone, Copy)]
enum Mark {
    More,
    Long,
    End,
}

// Where feeding stopped: bytes taken, bytes in the part, and why.
#[derive(Clone, Copy)]
struct Fed {
    taken: usize,
    held: usize,
    mark: Mark,
}

// The length that two bytes announce.
fn announced_by(first: u8, second: u8) -> usize
    ensures { (result ≡ announced first second) × (result < 2048) }
{
    first as usize + 256 * (second as usize / 32)
}

fn mark_of(part: &[u8], n: usize) -> Mark
    requires { 1 < length part.now }
    ensures { result ≡ mark_of n part.now }
{
    if n < 2 {
        return Mark::More;
    }
    let size = announced_by(part[0], part[1]);
    if 256 < size {
        return Mark::Long;
    }
    if n < 2 + size {
        return Mark::More;
    }
    Mark::End
}

// How many bytes a part of n bytes takes before it is judged again: the two of the head, then all that they announce.
fn wanted(part: &[u8], n: usize) -> usize
    requires { 1 < length part.now }
    ensures { result ≡ wanted_of n part.now }
{
    if n < 2 {
        return 2 - n;
    }
    let count = announced_by(part[0], part[1]);
    if 256 < count {
        return 1;
    }
    if n < 2 + count {
        return 2 + count - n;
    }
    1
}

// How many of the bytes left are stored at once.
fn run_length(part: &[u8], n: usize, left: usize) -> usize
    requires { (1 < length part.now) × (n < 258) × (0 < left) }
    ensures { (result ≡ least_of (wanted_of n part.now) left) × (0 < result) × (result ≤ left) × (n + result ≤ 258) }
{
    wanted(part, n).min(left)
}

// Stores bytes up to the end of a packet, or all of them, as many at once as cannot end a packet before the last of them.
fn feed(part: &mut [u8], held: usize, input: &[u8]) -> Fed
    requires { (held < 258) × (length part.old ≡ 258) }
    ensures { fed_in result part.new ≡ feed_of part.old held input.now }
{
    let mut n = held;
    let mut i = 0;
    // a `while`: each turn goes on behind the bytes that it stored, and how many those are depends on what the part holds by then
    while i < input.len() {
        let k = run_length(&*part, n, input.len() - i);
        // not refused: the run ends within the part
        let _ = store(part, n, &input[i..i + k]);
        n += k;
        i += k;
        match mark_of(&*part, n) {
            Mark::More => {}
            mark => {
                return Fed {
                    taken: i,
                    held: n,
                    mark,
                };
            }
        }
    }
    Fed {
        taken: i,
        held: n,
        mark: Mark::More,
    }
}

// Forgets an unfinished packet: the part holds nothing.
pub fn forget(part: &mut [u8])
    ensures { part.new ≡ replicate (length part.old) 0 }
{
    part.fill(0);
}

// The information of the packet in a part, padded with zeros.
fn information(part: &[u8], size: usize) -> [u8; 256]
    requires { (2 + size ≤ length part.now) × (size ≤ 256) }
    ensures { result ≡ padded (take size (drop 2 part.now)) }
{
    let mut info = [0u8; 256];
    // not refused: at most 256 bytes
    let _ = store(&mut info, 0, &part[2..2 + size]);
    info
}

// An answer without a packet.
fn without_packet(taken: usize, held: usize, frame: Frame) -> Framed
    ensures { result ≡ without_packet taken held frame }
{
    Framed {
        taken,
        held,
        frame,
        info: [0; 256],
    }
}

// Takes bytes of the link up to the end of one packet, or all. A finished packet leaves the part as `forget` does.
pub fn receive(part: &mut [u8], held: usize, input: &[u8]) -> Framed
    ensures { heard result part.new ≡ receive_of part.old held input.now }
{
    if part.len() != 258 || 258 <= held {
        return without_packet(0, held, Frame::Refused(33));
    }
    let fed = feed(part, held, input);
    match fed.mark {
        Mark::More => without_packet(fed.taken, fed.held, Frame::Open),
        Mark::Long => {
            forget(part);
            without_packet(fed.taken, 0, Frame::TooLong)
        }
        Mark::End => {
            let kind = part[1] % 32;
            let size = announced_by(part[0], part[1]);
            let info = information(&*part, size);
            forget(part);
            Framed {
                taken: fed.taken,
                held: 0,
                frame: Frame::Whole(kind, size),
                info,
            }
        }
    }
}
