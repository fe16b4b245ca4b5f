// What the bytes of a link bring about: they are heard, decided on, and carried out.
ghost use Rattle.std.specs.Prelude.{◌≡◌, ◌+◌, ◌*◌, ◌≤◌, length, replicate};
ghost use Rattle.carry.specs.Turn.{mem, turned};
ghost use Rattle.server.specs.State.{words, with_link, with_turn, part, with_part};
ghost use Rattle.server.specs.Turns.{heard_in, hear_of, size_in, used_of, in_use, ActPre, act_of};

use crate::Server;
use carry::turn::{Last, Turn};
use packet::frame::{Frame, Framed};
use session::state::Session;

// Bytes go into a session's part of the unfinished packets.
pub(crate) fn hear(held: &mut [u8], i: usize, count: usize, input: &[u8]) -> Framed
    requires { (i ≤ 3) × (i * 258 + 258 ≤ length held.old) }
    ensures { heard_in result held.new ≡ hear_of held.old i count input.now }
{
    let a = i * 258;
    let e = a + 258;
    packet::frame::receive(&mut held[a..e], count, input)
}

// The information length of a whole packet, 0 for none.
#[tactic(auto, unfolding(crate::specs::Turns::size_in))]
fn size_in(frame: Frame) -> usize
    ensures { result ≡ size_in frame }
{
    match frame {
        Frame::Whole(_, size) => size,
        _ => 0,
    }
}

// Session i, counted from 0, or a closed one where it is beyond those in use.
fn used(sessions: usize, i: usize, s: Session) -> Session
    ensures { result ≡ used_of sessions i s }
{
    if i < sessions {
        s
    } else {
        session::state::closed()
    }
}

// The sessions in use: what one beyond them holds counts for nothing.
fn in_use(server: Server) -> [Session; 4]
    ensures { result ≡ in_use server }
{
    let n = server.sessions;
    let [a, b, c, d] = server.links;
    [used(n, 0, a), used(n, 1, b), used(n, 2, c), used(n, 3, d)]
}

// The store's parts and the session's selection are handed to the act that is decided on.
pub(crate) fn act_on(
    server: Server,
    i: usize,
    s: Session,
    frame: Frame,
    info: &[u8],
    clock: u32,
    disk: &mut [u8],
    map: &mut [u64],
    owner: &mut [u16],
    table: &mut [u32],
    selected: &mut [u32],
) -> Turn
    requires { ActPre server i map.old owner.old table.old selected.old }
    ensures { turned result (mem disk.new map.new owner.new table.new selected.new)
        ≡ act_of server i s frame clock info.now (mem disk.old map.old owner.old table.old selected.old) }
{
    let b = server.blocks;
    let w = (b + 63) / 64;
    let x = 4 * server.files;
    let most = server.most;
    let a = i * most;
    let e = a + most;
    let links = in_use(server);
    let last = server.last;
    let size = size_in(frame);
    let what = decide::decide(s, links, frame, info, &table[..x], &selected[a..e]);
    carry::carry_out(
        what,
        s,
        last,
        clock,
        most,
        size,
        info,
        disk,
        &mut map[..w],
        &mut owner[..b],
        &mut table[..x],
        &mut selected[a..e],
    )
}

// The server with another state of a session.
pub(crate) fn with_link(server: Server, i: usize, s: Session) -> Server
    requires { i ≤ 3 }
    ensures { result ≡ with_link server i s }
{
    let mut next = server;
    next.links[i] = s;
    next
}

// The server after a turn.
pub(crate) fn with_turn(server: Server, i: usize, t: Turn) -> Server
    requires { i ≤ 3 }
    ensures { result ≡ with_turn server i t }
{
    Server {
        last: t.last,
        ..with_link(server, i, t.session)
    }
}

// Forgets a session's selection and its unfinished packet.
pub(crate) fn forget(most: usize, i: usize, selected: &mut [u32], held: &mut [u8])
    requires { (i ≤ 3) × (most ≤ 50) × (i * most + most ≤ length selected.old) × (i * 258 + 258 ≤ length held.old) }
    ensures selected_after { selected.new ≡ with_part (i * most) most (replicate most 0) selected.old }
    ensures held_after { held.new ≡ with_part (i * 258) 258 (replicate 258 0) held.old }
{
    let a = i * most;
    let b = a + most;
    let d = i * 258;
    let e = d + 258;
    carry::download::forget(&mut selected[a..b]);
    packet::frame::forget(&mut held[d..e]);
}
