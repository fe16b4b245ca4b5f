// The packets of the downlink: SELECT_CMD, DOWNLOAD_CMD, DL_ACK_CMD, DL_NAK_CMD, and the directory commands.
ghost use Rattle.std.specs.Prelude.{◌≡◌, ◌≤◌, length, get_or};
ghost use Rattle.table.specs.Table.{files};
ghost use Rattle.decide.specs.Downlink.{on_found, on_numbered, on_download, ten_from, list_found, list_numbered, on_directory, on_ack, on_nak, on_downlink};

use crate::act::Act;
use crate::uplink::word;
use session::reply::Reply;
use session::state::{Downlink, Listed};

// DOWNLOAD_CMD for a file that is looked for.
#[tactic(auto, unfolding(crate::specs::Downlink::on_found))]
fn on_found(found: Option<usize>, offset: u32, lock: u8, passed: usize, table: &[u32]) -> Act
    ensures { result ≡ on_found found offset lock passed (files table.now) }
{
    let Some(place) = found else {
        return Act::Tell(Reply::DownloadError(4));
    };
    let f = table::get(table, place);
    if f.time == 0 {
        return Act::Tell(Reply::DownloadError(11));
    }
    if f.size < offset {
        return Act::Tell(Reply::DownloadError(2));
    }
    Act::Send(place, offset, lock, passed)
}

// The selected number at a place, 0 past the last.
fn selected_at(selected: &[u32], next: usize) -> u32
    ensures { result ≡ get_or selected.now next 0 }
{
    selected.get(next).copied().unwrap_or(0)
}

// DOWNLOAD_CMD by its number.
#[tactic(auto, unfolding(crate::specs::Downlink::on_numbered))]
fn on_numbered(
    number: u32,
    offset: u32,
    lock: u8,
    count: usize,
    next: usize,
    table: &[u32],
    selected: &[u32],
) -> Act
    ensures { result ≡ on_numbered number offset lock count next (files table.now) selected.now }
{
    if number != 0 {
        let found = table::find(table, number);
        return on_found(found, offset, lock, next, table);
    }
    if count <= next {
        return Act::Tell(Reply::DownloadError(5));
    }
    let found = table::find(table, selected_at(selected, next));
    on_found(found, offset, lock, next + 1, table)
}

// DOWNLOAD_CMD.
#[tactic(auto, unfolding(crate::specs::Downlink::on_download))]
fn on_download(
    count: usize,
    next: usize,
    size: usize,
    info: &[u8],
    table: &[u32],
    selected: &[u32],
) -> Act
    requires { length info.now ≡ 256 }
    ensures { result ≡ on_download count next size info.now (files table.now) selected.now }
{
    if size != 9 {
        return Act::Tell(Reply::DownloadError(1));
    }
    let number = word(info, 0);
    let offset = word(info, 4);
    on_numbered(number, offset, info[8], count, next, table, selected)
}

// How many selected files lie behind a directory of the next ones: ten more, or all.
#[tactic(auto, unfolding(crate::specs::Downlink::ten_from))]
fn ten_from(next: usize, count: usize) -> usize
    requires { next ≤ count }
    ensures { result ≡ ten_from next count }
{
    next + (count - next).min(10)
}

// A directory of one file that is looked for.
#[tactic(auto, unfolding(crate::specs::Downlink::list_found))]
fn list_found(found: Option<usize>, long: bool, next: usize, table: &[u32]) -> Act
    ensures { result ≡ list_found found long next (files table.now) }
{
    let Some(place) = found else {
        return Act::Tell(Reply::DownloadError(4));
    };
    if table::get(table, place).time == 0 {
        return Act::Tell(Reply::DownloadError(11));
    }
    Act::List(Listed::One(place), long, next)
}

// A directory by its number.
#[tactic(auto, unfolding(crate::specs::Downlink::list_numbered))]
fn list_numbered(number: u32, long: bool, count: usize, next: usize, table: &[u32]) -> Act
    ensures { result ≡ list_numbered number long count next (files table.now) }
{
    if number != 0 {
        return list_found(table::find(table, number), long, next, table);
    }
    if count <= next {
        return Act::Tell(Reply::DownloadError(5));
    }
    Act::List(Listed::Selected(next), long, ten_from(next, count))
}

// DIR_SHORT_CMD and DIR_LONG_CMD.
#[tactic(auto, unfolding(crate::specs::Downlink::on_directory))]
fn on_directory(
    long: bool,
    count: usize,
    next: usize,
    size: usize,
    info: &[u8],
    table: &[u32],
) -> Act
    requires { length info.now ≡ 256 }
    ensures { result ≡ on_directory long count next size info.now (files table.now) }
{
    if size != 4 {
        return Act::Tell(Reply::DownloadError(1));
    }
    list_numbered(word(info, 0), long, count, next, table)
}

// DL_ACK_CMD.
#[tactic(auto, unfolding(crate::specs::Downlink::on_ack))]
fn on_ack(down: Downlink, size: usize, destination: u8) -> Act
    ensures { result ≡ on_ack down size destination }
{
    let Downlink::Ended { place } = down else {
        return Act::Close;
    };
    if size == 1 {
        Act::Confirm(place, destination)
    } else {
        Act::End(Reply::Aborted)
    }
}

// DL_NAK_CMD.
#[tactic(auto, unfolding(crate::specs::Downlink::on_nak))]
fn on_nak(down: Downlink) -> Act
    ensures { result ≡ on_nak down }
{
    match down {
        Downlink::Idle => Act::Ignore,
        Downlink::Sending { place, .. } => Act::Abort(place),
        Downlink::Ended { .. } => Act::End(Reply::Aborted),
        Downlink::Aborting { .. } => Act::Close,
        Downlink::Listing { .. } => Act::End(Reply::DataEnd),
    }
}

// An expected packet of the downlink.
#[tactic(auto, unfolding(crate::specs::Downlink::on_downlink))]
pub(crate) fn on_downlink(
    down: Downlink,
    count: usize,
    next: usize,
    kind: u8,
    size: usize,
    info: &[u8],
    table: &[u32],
    selected: &[u32],
) -> Act
    requires { length info.now ≡ 256 }
    ensures { result ≡ on_downlink down count next kind size info.now (files table.now) selected.now }
{
    match kind {
        8 => on_download(count, next, size, info, table, selected),
        12 => on_ack(down, size, info[0]),
        13 => on_nak(down),
        16 => Act::Select,
        _ => on_directory(kind == 15, count, next, size, info, table),
    }
}
