// The acts of the downlink, and closing.
ghost use Rattle.std.specs.Prelude.{◌≡◌, length, replicate};
ghost use Rattle.carry.specs.Turn.{chooses};
ghost use Rattle.carry.specs.Download.{close_turn, select_turn, begin_turn, list_turn, confirm_turn};

use crate::turn::{Last, Turn, downlink_only, reply_only};
use session::reply::Reply;
use session::state::{Downlink, Listed, Session};

// Forgets a selection.
pub fn forget(selected: &mut [u32])
    ensures { selected.new ≡ replicate (length selected.old) 0 }
{
    selected.fill(0);
}

// The link is closed: the selection is forgotten, and the partial stays as it is.
#[tactic(auto, unfolding(crate::specs::Download::close_turn))]
pub(crate) fn close(last: Last, selected: &mut [u32]) -> Turn
    ensures { chooses result selected.new ≡ close_turn last selected.old }
{
    forget(selected);
    reply_only(session::state::closed(), last, Reply::Closing)
}

// SELECT_CMD.
#[tactic(auto, using(refusal::proofs::Laws::not_done), unfolding(crate::specs::Download::select_turn, crate::specs::Download::selected_as))]
pub(crate) fn select(
    s: Session,
    last: Last,
    most: usize,
    size: usize,
    info: &[u8],
    disk: &[u8],
    owner: &[u16],
    table: &[u32],
    selected: &mut [u32],
) -> Turn
    ensures { chooses result selected.new
        ≡ select_turn s last most size info.now disk.now owner.now table.now selected.old }
{
    if info.len() < size {
        return reply_only(s, last, Reply::Nothing);
    }
    match files::select(&info[..size], disk, owner, table, selected, most) {
        Ok(count) => {
            let next = session::state::with_selection(s, count);
            reply_only(next, last, Reply::Selected(count))
        }
        Err(refusal) => reply_only(s, last, Reply::DownloadError(u8::from(refusal))),
    }
}

// DOWNLOAD_CMD of a complete file: 10, or the download begins and `passed` selected files lie behind it.
#[tactic(auto, unfolding(crate::specs::Download::begin_turn))]
pub(crate) fn begin(
    s: Session,
    last: Last,
    place: usize,
    offset: u32,
    lock: u8,
    passed: usize,
    disk: &[u8],
    owner: &[u16],
    table: &[u32],
) -> Turn
    ensures { result ≡ begin_turn s last place offset lock passed disk.now owner.now table.now }
{
    if files::destinations(disk, owner, table, place) < lock as usize {
        return reply_only(s, last, Reply::DownloadError(10));
    }
    let moved = session::state::with_next(s, passed);
    let down = Downlink::Sending {
        place: place,
        offset: offset,
        sent: 0,
    };
    downlink_only(moved, last, down, Reply::Nothing)
}

// DIR_SHORT_CMD or DIR_LONG_CMD of complete files: the directory begins, and `passed` selected files lie behind it.
#[tactic(auto, unfolding(crate::specs::Download::list_turn))]
pub(crate) fn list(s: Session, last: Last, listed: Listed, long: bool, passed: usize) -> Turn
    ensures { result ≡ list_turn s last listed long passed }
{
    let moved = session::state::with_next(s, passed);
    let down = Downlink::Listing {
        listed: listed,
        long: long,
        done: 0,
        sent: 0,
    };
    downlink_only(moved, last, down, Reply::Nothing)
}

// DL_ACK_CMD: the download is over.
#[tactic(auto, unfolding(crate::specs::Download::confirm_turn))]
pub(crate) fn confirm(
    s: Session,
    last: Last,
    place: usize,
    destination: u8,
    disk: &[u8],
    owner: &[u16],
    table: &[u32],
) -> Turn
    ensures { result ≡ confirm_turn s last place destination disk.now owner.now table.now }
{
    if files::destinations(disk, owner, table, place) < destination as usize {
        return downlink_only(s, last, Downlink::Idle, Reply::Aborted);
    }
    downlink_only(s, last, Downlink::Idle, Reply::Completed)
}
