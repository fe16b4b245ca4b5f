// Acts carried out: what a decided packet does to its session, to the store and to the selection, and the reply to it.
#![tactic(auto)]

pub mod download;
pub mod turn;
mod upload;

ghost use Rattle.std.specs.Prelude.{◌≡◌};
ghost use Rattle.carry.specs.Turn.{mem, turned};
ghost use Rattle.carry.specs.Carry.{carry_out};

use decide::act::Act;
use session::reply::Reply;
use session::state::{Downlink, Session, Uplink};
use turn::{Last, Turn};

// Carries an act out for a session. `size` bytes of the information are the packet's; `most` is MAXSEL; `selected` is the session's part.
#[tactic(auto, unfolding(crate::specs::Carry::carry_out, crate::specs::Carry::on_frees, crate::specs::Carry::on_writes, crate::specs::Carry::on_moves, crate::specs::Carry::on_chooses))]
pub fn carry_out(
    what: Act,
    s: Session,
    last: Last,
    clock: u32,
    most: usize,
    size: usize,
    info: &[u8],
    disk: &mut [u8],
    map: &mut [u64],
    owner: &mut [u16],
    table: &mut [u32],
    selected: &mut [u32],
) -> Turn
    ensures { turned result (mem disk.new map.new owner.new table.new selected.new)
        ≡ carry_out what s last clock most size info.now (mem disk.old map.old owner.old table.old selected.old) }
{
    match what {
        Act::Close => download::close(last, selected),
        Act::Ignore => turn::reply_only(s, last, Reply::Nothing),
        Act::Tell(r) => turn::reply_only(s, last, r),
        Act::Begin(length) => upload::begin(s, last, length, map, owner, table),
        Act::Resume(place, number, received) => upload::resume(s, last, place, number, received),
        Act::Store(place, offset, received) => upload::store(
            s, last, place, offset, received, size, info, disk, owner, table,
        ),
        Act::Overrun(place) => upload::discard(
            s,
            last,
            place,
            Uplink::Ignoring,
            16,
            map,
            owner,
            table,
        ),
        Act::Stop => turn::uplink_only(s, last, Uplink::Idle, Reply::Nothing),
        Act::Finish(place) => upload::finish(s, last, place, clock, disk, map, owner, table),
        Act::Select => download::select(s, last, most, size, info, disk, owner, table, selected),
        Act::Send(place, offset, lock, passed) => download::begin(
            s, last, place, offset, lock, passed, disk, owner, table,
        ),
        Act::Confirm(place, destination) => download::confirm(
            s,
            last,
            place,
            destination,
            disk,
            owner,
            table,
        ),
        Act::End(r) => turn::downlink_only(s, last, Downlink::Idle, r),
        Act::Abort(place) => turn::downlink_only(
            s,
            last,
            Downlink::Aborting { place: place },
            Reply::DataEnd,
        ),
        Act::List(listed, long, passed) => download::list(s, last, listed, long, passed),
    }
}
