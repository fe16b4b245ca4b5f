// What is due on a session's downlink at a request of the driver: one packet, or nothing. An output that has no room for every packet is refused by
// 32, and nothing changes.
#![tactic(auto)]

ghost use Rattle.std.specs.Prelude.{◌≡◌, ◌+◌, ◌*◌, ◌≤◌, length};
ghost use Rattle.table.specs.Table.{files};
ghost use Rattle.sending.specs.Sending.{asked, least_of, data_of, sending_of, listed_as, listing_of, due_of, due_in};

use listing::Filled;
use session::reply::{Answer, Reply};
use session::state::{Downlink, Listed, Session};

// The session after a request, and the answer.
#[derive(Clone, Copy)]
pub struct Asked {
    pub session: Session,
    pub answer: Answer,
}

// A DATA packet of the next n bytes of the file at a place.
fn send_data(
    s: Session,
    place: usize,
    offset: u32,
    sent: u32,
    n: usize,
    disk: &[u8],
    owner: &[u16],
    out: &mut [u8],
) -> Asked
    requires { (n ≤ 256) × (258 ≤ length out.old) }
    ensures { asked result out.new ≡ data_of s place offset sent n disk.now owner.now out.old }
{
    let at = offset as usize + sent as usize;
    let mut info = [0u8; 256];
    // where the place has no such bytes, they are zeros
    let _ = blocks::read(disk, owner, (place % 65536) as u16, at, &mut info[..n]);
    // neither refusal can occur: the type, the length and the room are as the writer wants them
    let _ = packet::plain::write_packet(0, &info[..n], out);
    let down = Downlink::Sending {
        place,
        offset,
        sent: ((sent as u64 + n as u64) % 4294967296) as u32,
    };
    Asked {
        session: session::state::with_down(s, down),
        answer: Answer::Sent(0, 2 + n),
    }
}

// The next packet of a download: DATA as full as can be, then DATA_END.
fn send_next(
    s: Session,
    place: usize,
    offset: u32,
    sent: u32,
    disk: &[u8],
    owner: &[u16],
    table: &[u32],
    out: &mut [u8],
) -> Asked
    requires { 258 ≤ length out.old }
    ensures { asked result out.new ≡ sending_of s place offset sent disk.now owner.now (files table.now) out.old }
{
    let f = table::get(table, place);
    let at = offset as usize + sent as usize;
    let size = f.size as usize;
    if at < size {
        let n = (size - at).min(256);
        return send_data(s, place, offset, sent, n, disk, owner, out);
    }
    Asked {
        session: session::state::with_down(s, Downlink::Ended { place }),
        answer: session::reply::send(Reply::DataEnd, 0, out),
    }
}

// The next bytes of a directory as DATA, or DATA_END where there are none.
fn send_filled(s: Session, listed: Listed, long: bool, f: Filled, out: &mut [u8]) -> Asked
    requires { (f.size ≤ 256) × (length f.bytes ≡ 256) × (258 ≤ length out.old) }
    ensures { asked result out.new ≡ listed_as s listed long f out.old }
{
    if f.size == 0 {
        return Asked {
            session: session::state::with_down(s, Downlink::Idle),
            answer: session::reply::send(Reply::DataEnd, 0, out),
        };
    }
    let n = f.size;
    let bytes = f.bytes;
    // neither refusal can occur: the type, the length and the room are as the writer wants them
    let _ = packet::plain::write_packet(0, &bytes[..n], out);
    let down = Downlink::Listing {
        listed,
        long,
        done: f.done,
        sent: f.sent,
    };
    Asked {
        session: session::state::with_down(s, down),
        answer: Answer::Sent(0, 2 + n),
    }
}

// The next packet of a directory.
fn send_listing(
    s: Session,
    listed: Listed,
    long: bool,
    done: usize,
    sent: usize,
    disk: &[u8],
    owner: &[u16],
    table: &[u32],
    selected: &[u32],
    out: &mut [u8],
) -> Asked
    requires { 258 ≤ length out.old }
    ensures { asked result out.new
        ≡ listing_of s listed long done sent disk.now owner.now (files table.now) selected.now out.old }
{
    let f = listing::fill(
        listed, long, s.next, done, sent, disk, owner, table, selected,
    );
    send_filled(s, listed, long, f, out)
}

// What is due, if anything, in an output that has room for it.
#[tactic(auto, unfolding(crate::specs::Sending::due_of))]
fn send_due(
    s: Session,
    disk: &[u8],
    owner: &[u16],
    table: &[u32],
    selected: &[u32],
    out: &mut [u8],
) -> Asked
    requires { 258 ≤ length out.old }
    ensures { asked result out.new ≡ due_of s.down s disk.now owner.now (files table.now) selected.now out.old }
{
    match s.down {
        Downlink::Idle | Downlink::Ended { .. } => Asked {
            session: s,
            answer: Answer::Quiet(0),
        },
        Downlink::Sending {
            place,
            offset,
            sent,
        } => send_next(s, place, offset, sent, disk, owner, table, out),
        Downlink::Aborting { .. } => Asked {
            session: session::state::with_down(s, Downlink::Idle),
            answer: session::reply::send(Reply::Aborted, 0, out),
        },
        Downlink::Listing {
            listed,
            long,
            done,
            sent,
        } => send_listing(
            s, listed, long, done, sent, disk, owner, table, selected, out,
        ),
    }
}

// What is due, if anything; 32 where the output is shorter than 258 bytes.
pub fn due(
    s: Session,
    disk: &[u8],
    owner: &[u16],
    table: &[u32],
    selected: &[u32],
    out: &mut [u8],
) -> Asked
    ensures { asked result out.new ≡ due_in s disk.now owner.now (files table.now) selected.now out.old }
{
    if out.len() < 258 {
        return Asked {
            session: s,
            answer: Answer::Refused(32),
        };
    }
    send_due(s, disk, owner, table, selected, out)
}
