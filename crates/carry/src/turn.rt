// What an act makes of a session: its next state, the last number and time given, and the reply.
ghost use Rattle.std.specs.Prelude.{◌≡◌};
ghost use Rattle.session.specs.State.{with_up, with_down};
ghost use Rattle.carry.specs.Turn.{turn_of};

use session::reply::Reply;
use session::state::{Downlink, Session, Uplink};

// The last file number and the last upload time given.
#[derive(Clone, Copy)]
pub struct Last {
    pub number: u32,
    pub time: u32,
}

#[derive(Clone, Copy)]
pub struct Turn {
    pub session: Session,
    pub last: Last,
    pub reply: Reply,
}

// The session stays as it is.
pub(crate) fn reply_only(s: Session, last: Last, reply: Reply) -> Turn
    ensures { result ≡ turn_of s last reply }
{
    Turn {
        session: s,
        last: last,
        reply: reply,
    }
}

// Only the uplink moves.
pub(crate) fn uplink_only(s: Session, last: Last, up: Uplink, reply: Reply) -> Turn
    ensures { result ≡ turn_of (with_up s up) last reply }
{
    reply_only(session::state::with_up(s, up), last, reply)
}

// Only the downlink moves.
pub(crate) fn downlink_only(s: Session, last: Last, down: Downlink, reply: Reply) -> Turn
    ensures { result ≡ turn_of (with_down s down) last reply }
{
    reply_only(session::state::with_down(s, down), last, reply)
}
