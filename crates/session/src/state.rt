// The state of a session: an uplink state and a downlink state that move separately.
ghost use Rattle.std.specs.Prelude.{◌≡◌, Bool, true, false, cond, eqb};
ghost use Rattle.session.specs.State.{closed_session, fresh_session, with_up, with_down, with_held, with_selection, with_next};
ghost use Rattle.session.specs.Expected.{takes_data, takes_upload, takes_command, takes_ack, takes_nak, expected_up, expected_down, expected};

// The uplink. Receiving carries the file's place, the offset at which this link began, and the bytes received on it since.
#[derive(Clone, Copy)]
pub enum Uplink {
    Idle,
    Receiving {
        place: usize,
        offset: u32,
        received: u32,
    },
    Ignoring,
}

// The files of a directory: the one at a place, or those of the session's selection from one on up to the session's place in it, which the command
// moved past the last of them. No command moves that place before DATA_END goes out, so all of them are known until then.
#[derive(Clone, Copy)]
pub enum Listed {
    // no `Option`: both have a place
    One(usize),
    Selected(usize),
}

// The downlink. Sending carries the file's place, the offset asked for, and the bytes sent since. Ended: DATA_END is sent.
// Aborting: DATA_END is sent after DL_NAK_CMD, and DL_ABORTED_RESP is due. Listing is a directory: of which files, in the long form or the short
// one, how many of them lie behind, and how many bytes of the next one's entry.
#[derive(Clone, Copy)]
pub enum Downlink {
    Idle,
    Sending {
        place: usize,
        offset: u32,
        sent: u32,
    },
    Ended {
        place: usize,
    },
    Aborting {
        place: usize,
    },
    Listing {
        listed: Listed,
        long: bool,
        done: usize,
        sent: usize,
    },
}

// A session: whether its link is there, the two states, how many bytes of an unfinished packet are held, how many files are
// selected, and which of them is next.
#[derive(Clone, Copy)]
pub struct Session {
    pub linked: bool,
    pub up: Uplink,
    pub down: Downlink,
    pub held: usize,
    pub count: usize,
    pub next: usize,
}

// A session whose link is not there: one fixed state.
pub fn closed() -> Session
    ensures { result ≡ closed_session }
{
    Session {
        linked: false,
        up: Uplink::Idle,
        down: Downlink::Idle,
        held: 0,
        count: 0,
        next: 0,
    }
}

// A session at login.
pub fn fresh() -> Session
    ensures { result ≡ fresh_session }
{
    Session {
        linked: true,
        up: Uplink::Idle,
        down: Downlink::Idle,
        held: 0,
        count: 0,
        next: 0,
    }
}

pub fn with_up(s: Session, up: Uplink) -> Session
    ensures { result ≡ with_up s up }
{
    Session { up, ..s }
}

pub fn with_down(s: Session, down: Downlink) -> Session
    ensures { result ≡ with_down s down }
{
    Session { down, ..s }
}

pub fn with_held(s: Session, held: usize) -> Session
    ensures { result ≡ with_held s held }
{
    Session { held, ..s }
}

// A new selection, with its first file next.
pub fn with_selection(s: Session, count: usize) -> Session
    ensures { result ≡ with_selection s count }
{
    Session {
        count,
        next: 0,
        ..s
    }
}

pub fn with_next(s: Session, next: usize) -> Session
    ensures { result ≡ with_next s next }
{
    Session { next, ..s }
}

// DATA and DATA_END are expected.
fn takes_data(up: Uplink) -> bool
    ensures { result ≡ takes_data up }
{
    matches!(up, Uplink::Receiving { .. } | Uplink::Ignoring)
}

// UPLOAD_CMD is expected.
fn takes_upload(up: Uplink) -> bool
    ensures { result ≡ takes_upload up }
{
    matches!(up, Uplink::Idle)
}

// A command that begins something on the downlink is expected.
fn takes_command(down: Downlink) -> bool
    ensures { result ≡ takes_command down }
{
    matches!(down, Downlink::Idle)
}

// DL_ACK_CMD is expected.
fn takes_ack(down: Downlink) -> bool
    ensures { result ≡ takes_ack down }
{
    matches!(down, Downlink::Ended { .. })
}

// DL_NAK_CMD is expected.
fn takes_nak(down: Downlink) -> bool
    ensures { result ≡ takes_nak down }
{
    !matches!(down, Downlink::Aborting { .. })
}

// The packets of the uplink that are expected.
#[tactic(auto, unfolding(crate::specs::Expected::expected_up))]
fn expected_up(up: Uplink, kind: u8, size: usize) -> bool
    ensures { result ≡ expected_up up kind size }
{
    match kind {
        0 => takes_data(up),
        1 => size == 0 && takes_data(up),
        3 => takes_upload(up),
        _ => false,
    }
}

// The packets of the downlink that are expected.
#[tactic(auto, unfolding(crate::specs::Expected::expected_down))]
fn expected_down(down: Downlink, kind: u8, size: usize) -> bool
    ensures { result ≡ expected_down down kind size }
{
    match kind {
        8 | 14..=16 => takes_command(down),
        12 => takes_ack(down),
        13 => size == 0 && takes_nak(down),
        _ => false,
    }
}

// A packet of this type and information length is expected in the session's state.
#[tactic(auto, unfolding(crate::specs::Expected::expected))]
pub fn expects(s: Session, kind: u8, size: usize) -> bool
    ensures { result ≡ expected s.up s.down kind size }
{
    if kind < 8 {
        expected_up(s.up, kind, size)
    } else {
        expected_down(s.down, kind, size)
    }
}
