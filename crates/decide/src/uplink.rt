// The packets of the uplink: UPLOAD_CMD, DATA, DATA_END.
ghost use Rattle.std.specs.Prelude.{◌≡◌, ◌≤◌, length};
ghost use Rattle.table.specs.Table.{files};
ghost use Rattle.decide.specs.Words.{word_at};
ghost use Rattle.decide.specs.Uplink.{uploads_in, uploads, uploading, on_continued, on_upload, on_data, on_end, on_uplink};

use crate::act::Act;
use numbers::number32;
use session::reply::Reply;
use session::state::{Session, Uplink};

// The four bytes from a place on, as a number.
pub(crate) fn word(info: &[u8], at: usize) -> u32
    requires { (length info.now ≡ 256) × (at ≤ 252) }
    ensures { result ≡ word_at info.now at }
{
    number32(info[at], info[at + 1], info[at + 2], info[at + 3])
}

// An uplink in this state is receiving the file at a place.
#[tactic(auto, unfolding(crate::specs::Uplink::uploads_in))]
fn receives_in(up: Uplink, place: usize) -> bool
    ensures { result ≡ uploads_in up place }
{
    matches!(up, Uplink::Receiving { place: p, .. } if p == place)
}

// The session is uploading the file at a place; one whose link is not there uploads nothing.
#[tactic(auto, unfolding(crate::specs::Uplink::uploads))]
fn receives(s: Session, place: usize) -> bool
    ensures { result ≡ uploads s place }
{
    s.linked && receives_in(s.up, place)
}

// One of the sessions is uploading the file at a place.
#[tactic(auto, unfolding(crate::specs::Uplink::uploading))]
fn in_use(links: [Session; 4], place: usize) -> bool
    ensures { result ≡ uploading links place }
{
    let [a, b, c, d] = links;
    receives(a, place) || receives(b, place) || receives(c, place) || receives(d, place)
}

// UPLOAD_CMD for a file that is to be continued.
#[tactic(auto, unfolding(crate::specs::Uplink::on_continued))]
fn on_continued(
    found: Option<usize>,
    number: u32,
    size: u32,
    links: [Session; 4],
    table: &[u32],
) -> Act
    ensures { result ≡ on_continued found number size links (files table.now) }
{
    let Some(place) = found else {
        return Act::Tell(Reply::UploadError(4));
    };
    let f = table::get(table, place);
    if f.time != 0 {
        return Act::Tell(Reply::UploadError(12));
    }
    if f.size != size || in_use(links, place) {
        return Act::Tell(Reply::UploadError(2));
    }
    Act::Resume(place, number, f.received)
}

// UPLOAD_CMD.
#[tactic(auto, unfolding(crate::specs::Uplink::on_upload))]
fn on_upload(links: [Session; 4], size: usize, info: &[u8], table: &[u32]) -> Act
    requires { length info.now ≡ 256 }
    ensures { result ≡ on_upload links size info.now (files table.now) }
{
    if size != 8 {
        return Act::Tell(Reply::UploadError(1));
    }
    let number = word(info, 0);
    let announced = word(info, 4);
    if number == 0 {
        return Act::Begin(announced);
    }
    let found = table::find(table, number);
    on_continued(found, number, announced, links, table)
}

// DATA.
#[tactic(auto, unfolding(crate::specs::Uplink::on_data))]
fn on_data(up: Uplink, size: usize, table: &[u32]) -> Act
    ensures { result ≡ on_data up size (files table.now) }
{
    match up {
        Uplink::Idle => Act::Close,
        Uplink::Receiving {
            place,
            offset,
            received,
        } => {
            let f = table::get(table, place);
            if f.size < f.received || ((f.size - f.received) as usize) < size {
                return Act::Overrun(place);
            }
            Act::Store(place, offset, received)
        }
        Uplink::Ignoring => Act::Ignore,
    }
}

// DATA_END.
#[tactic(auto, unfolding(crate::specs::Uplink::on_end))]
fn on_end(up: Uplink) -> Act
    ensures { result ≡ on_end up }
{
    match up {
        Uplink::Idle => Act::Close,
        Uplink::Receiving { place, .. } => Act::Finish(place),
        Uplink::Ignoring => Act::Stop,
    }
}

// An expected packet of the uplink.
#[tactic(auto, unfolding(crate::specs::Uplink::on_uplink))]
pub(crate) fn on_uplink(
    up: Uplink,
    links: [Session; 4],
    kind: u8,
    size: usize,
    info: &[u8],
    table: &[u32],
) -> Act
    requires { length info.now ≡ 256 }
    ensures { result ≡ on_uplink up links kind size info.now (files table.now) }
{
    match kind {
        0 => on_data(up, size, table),
        1 => on_end(up),
        _ => on_upload(links, size, info, table),
    }
}
