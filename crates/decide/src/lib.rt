// Decisions: what a packet asks for, in the state that its session is in. Reads the session, the file table and the selection, and
// changes nothing; the server carries the act out.
#![tactic(auto)]

pub mod act;
mod downlink;
mod uplink;

ghost use Rattle.std.specs.Prelude.{◌≡◌, length};
ghost use Rattle.table.specs.Table.{files};
ghost use Rattle.decide.specs.Decide.{on_packet, decide_of};

use act::Act;
use packet::frame::Frame;
use session::state::Session;

// A whole packet. Closing comes before the numbers 1 to 16.
#[tactic(auto, unfolding(crate::specs::Decide::on_packet))]
fn on_packet(
    s: Session,
    links: [Session; 4],
    kind: u8,
    size: usize,
    info: &[u8],
    table: &[u32],
    selected: &[u32],
) -> Act
    requires { length info.now ≡ 256 }
    ensures { result ≡ on_packet s links kind size info.now (files table.now) selected.now }
{
    if !session::state::expects(s, kind, size) {
        return Act::Close;
    }
    if kind < 8 {
        uplink::on_uplink(s.up, links, kind, size, info, table)
    } else {
        downlink::on_downlink(s.down, s.count, s.next, kind, size, info, table, selected)
    }
}

// What the bytes of a link came to asks for. The information is 256 bytes, padded with zeros; a shorter one asks for nothing.
#[tactic(auto, unfolding(crate::specs::Decide::decide_of, crate::specs::Decide::on_frame))]
pub fn decide(
    s: Session,
    links: [Session; 4],
    frame: Frame,
    info: &[u8],
    table: &[u32],
    selected: &[u32],
) -> Act
    ensures { result ≡ decide_of s links frame info.now (files table.now) selected.now }
{
    if info.len() != 256 {
        return Act::Ignore;
    }
    match frame {
        Frame::Open | Frame::Refused(_) => Act::Ignore,
        Frame::TooLong => Act::Close,
        Frame::Whole(kind, size) => on_packet(s, links, kind, size, info, table, selected),
    }
}
