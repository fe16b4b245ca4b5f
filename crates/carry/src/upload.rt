// The acts of the uplink.
ghost use Rattle.std.specs.Prelude.{◌≡◌};
ghost use Rattle.refusal.specs.Refusal.{numbered};
ghost use Rattle.carry.specs.Turn.{frees, writes, moves};
ghost use Rattle.carry.specs.Upload.{resume_turn, begun_turn, begin_turn, store_turn, discard_turn, accept_turn, judged_at, finish_turn};

use crate::turn::{Last, Turn, reply_only, uplink_only};
use refusal::Refusal;
use session::reply::Reply;
use session::state::{Session, Uplink};

// A file begun or refused.
#[tactic(auto, unfolding(crate::specs::Upload::begun_turn))]
fn begun(answer: Result<usize, Refusal>, s: Session, last: Last, number: u32) -> Turn
    ensures { result ≡ begun_turn (numbered answer) s last number }
{
    match answer {
        Err(refusal) => reply_only(s, last, Reply::UploadError(refusal.into())),
        Ok(place) => {
            let up = Uplink::Receiving {
                place,
                offset: 0,
                received: 0,
            };
            let next = Last {
                number,
                time: last.time,
            };
            uplink_only(s, next, up, Reply::Go(number, 0))
        }
    }
}

// A new upload: 3, then 13.
#[tactic(auto, unfolding(crate::specs::Upload::begin_with, crate::specs::Upload::begun_as))]
pub(crate) fn begin(
    s: Session,
    last: Last,
    length: u32,
    map: &mut [u64],
    owner: &mut [u16],
    table: &mut [u32],
) -> Turn
    ensures { frees result map.new owner.new table.new
        ≡ begin_turn s last «length» map.old owner.old table.old }
{
    let Some(number) = table::next_number(last.number) else {
        return reply_only(s, last, Reply::UploadError(Refusal::UsedUp.into()));
    };
    let answer = files::begin(map, owner, table, last.number, length);
    begun(answer, s, last, number)
}

// An upload goes on where it stopped.
pub(crate) fn resume(s: Session, last: Last, place: usize, number: u32, received: u32) -> Turn
    ensures { result ≡ resume_turn s last place number received }
{
    let up = Uplink::Receiving {
        place,
        offset: received,
        received: 0,
    };
    uplink_only(s, last, up, Reply::Go(number, received))
}

// DATA: the bytes go behind those received.
#[tactic(auto, using(refusal::proofs::Laws::not_done), unfolding(crate::specs::Upload::store_turn, crate::specs::Upload::appended_as, crate::specs::Upload::stored_as))]
pub(crate) fn store(
    s: Session,
    last: Last,
    place: usize,
    offset: u32,
    received: u32,
    size: usize,
    info: &[u8],
    disk: &mut [u8],
    owner: &[u16],
    table: &mut [u32],
) -> Turn
    ensures { writes result disk.new table.new
        ≡ store_turn s last place offset received size info.now disk.old owner.now table.old }
{
    if info.len() < size {
        return reply_only(s, last, Reply::Nothing);
    }
    if let Err(refusal) = files::append(disk, owner, table, place, &info[..size]) {
        return reply_only(s, last, Reply::Nak(refusal.into()));
    }
    let up = Uplink::Receiving {
        place,
        offset,
        received: ((received as u64 + (size % 4294967296) as u64) % 4294967296) as u32,
    };
    uplink_only(s, last, up, Reply::Nothing)
}

// UL_NAK_RESP with a number: the partial is discarded, and the uplink goes to a state.
#[tactic(auto, unfolding(crate::specs::Upload::discard_turn))]
pub(crate) fn discard(
    s: Session,
    last: Last,
    place: usize,
    up: Uplink,
    number: u8,
    map: &mut [u64],
    owner: &mut [u16],
    table: &mut [u32],
) -> Turn
    ensures { frees result map.new owner.new table.new
        ≡ discard_turn s last place up number map.old owner.old table.old }
{
    // a refusal changes nothing, and the link goes on as after a partial that was discarded
    let _ = files::discard(map, owner, table, place);
    uplink_only(s, last, up, Reply::Nak(number))
}

// UL_ACK_RESP: the file is complete.
#[tactic(auto, using(refusal::proofs::Laws::not_done), unfolding(crate::specs::Upload::accept_turn, crate::specs::Upload::accepted_as))]
fn accept(
    s: Session,
    last: Last,
    place: usize,
    time: u32,
    disk: &mut [u8],
    owner: &[u16],
    table: &mut [u32],
) -> Turn
    ensures { writes result disk.new table.new
        ≡ accept_turn s last place time disk.old owner.now table.old }
{
    if let Err(refusal) = files::complete(disk, owner, table, place, time) {
        return uplink_only(s, last, Uplink::Idle, Reply::Nak(refusal.into()));
    }
    let next = Last {
        number: last.number,
        time,
    };
    uplink_only(s, next, Uplink::Idle, Reply::Ack)
}

// What DATA_END gives a file: the upload time, or why it is refused. The header's checks, "then 3".
#[tactic(auto, using(refusal::proofs::Laws::not_done), unfolding(crate::specs::Upload::judged_at, crate::specs::Upload::timed))]
fn judge(
    last: Last,
    place: usize,
    clock: u32,
    disk: &[u8],
    owner: &[u16],
    table: &[u32],
) -> Result<u32, Refusal>
    ensures { numbered result ≡ judged_at last place clock disk.now owner.now table.now }
{
    files::check(disk, owner, table, place)?;
    table::upload_time(clock, last.time).ok_or(Refusal::UsedUp)
}

// DATA_END.
#[tactic(auto, unfolding(crate::specs::Upload::finish_as, crate::specs::Upload::with_disk, crate::specs::Upload::with_blocks))]
pub(crate) fn finish(
    s: Session,
    last: Last,
    place: usize,
    clock: u32,
    disk: &mut [u8],
    map: &mut [u64],
    owner: &mut [u16],
    table: &mut [u32],
) -> Turn
    ensures { moves result disk.new map.new owner.new table.new
        ≡ finish_turn s last place clock disk.old map.old owner.old table.old }
{
    match judge(last, place, clock, &*disk, &*owner, &*table) {
        Err(refusal) => discard(
            s,
            last,
            place,
            Uplink::Idle,
            refusal.into(),
            map,
            owner,
            table,
        ),
        Ok(time) => accept(s, last, place, time, disk, &*owner, table),
    }
}
