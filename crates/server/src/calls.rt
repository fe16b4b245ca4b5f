// What a call does after its check: a refusal changes nothing; else the session's call is made.
ghost use Rattle.std.specs.Prelude.{◌≡◌, [], ◌≤◌};
ghost use Rattle.refusal.specs.Refusal.{numbered};
ghost use Rattle.server.specs.State.{lent, outcome};
ghost use Rattle.server.specs.Calls.{Goes, StepPre, LosePre, DuePre, step_of, opened, on_login, lost, on_lose, on_request};

use crate::{Done, Server, turns};
use refusal::Refusal;
use session::reply::{Answer, Reply};

// Bytes of an open session's link.
pub(crate) fn step(
    server: Server,
    i: usize,
    clock: u32,
    input: &[u8],
    disk: &mut [u8],
    map: &mut [u64],
    owner: &mut [u16],
    table: &mut [u32],
    selected: &mut [u32],
    held: &mut [u8],
    out: &mut [u8],
) -> Done
    requires { StepPre server i map.old owner.old table.old selected.old held.old }
    ensures { outcome result (lent disk.new map.new owner.new table.new selected.new held.new) out.new
        ≡ step_of server i clock input.now (lent disk.old map.old owner.old table.old selected.old held.old) out.old }
{
    let s = server.links[i];
    let f = turns::hear(held, i, s.held, input);
    let t = session::state::with_held(s, f.held);
    let frame = f.frame;
    let info = f.info;
    let turn = turns::act_on(
        server, i, t, frame, &info, clock, disk, map, owner, table, selected,
    );
    let next = turns::with_turn(server, i, turn);
    let reply = turn.reply;
    let answer = session::reply::send(reply, f.taken, out);
    Done {
        server: next,
        answer,
    }
}

// A session begins, and LOGIN_RESP goes out.
pub(crate) fn on_login(
    k: Result<usize, Refusal>,
    server: Server,
    out: &mut [u8],
    clock: u32,
) -> Done
    requires { Goes (numbered k) (λ i. i ≤ 3) }
    ensures { opened result out.new ≡ on_login (numbered k) server out.old clock }
{
    match k {
        Err(refusal) => Done {
            server,
            answer: Answer::Refused(refusal.into()),
        },
        Ok(i) => {
            let next = turns::with_link(server, i, session::state::fresh());
            let answer = session::reply::send(Reply::Login(clock), 0, out);
            Done {
                server: next,
                answer,
            }
        }
    }
}

// A session is closed, and its unfinished packet and its selection are forgotten.
pub(crate) fn on_lose(
    k: Result<usize, Refusal>,
    server: Server,
    selected: &mut [u32],
    held: &mut [u8],
) -> Done
    requires { Goes (numbered k) (λ i. LosePre server i selected.old held.old) }
    ensures { lost result selected.new held.new ≡ on_lose (numbered k) server selected.old held.old }
{
    match k {
        Err(refusal) => Done {
            server,
            answer: Answer::Refused(refusal.into()),
        },
        Ok(i) => {
            turns::forget(server.most, i, selected, held);
            let next = turns::with_link(server, i, session::state::closed());
            Done {
                server: next,
                answer: Answer::Quiet(0),
            }
        }
    }
}

// What is due on a session's downlink. The map and the unfinished packets are not looked at.
pub(crate) fn on_request(
    k: Result<usize, Refusal>,
    server: Server,
    disk: &[u8],
    owner: &[u16],
    table: &[u32],
    selected: &[u32],
    out: &mut [u8],
) -> Done
    requires { Goes (numbered k) (λ i. DuePre server i owner.now table.now selected.now out.old) }
    ensures { opened result out.new
        ≡ on_request (numbered k) server (lent disk.now [] owner.now table.now selected.now []) out.old }
{
    match k {
        Err(refusal) => Done {
            server,
            answer: Answer::Refused(refusal.into()),
        },
        Ok(i) => {
            let s = server.links[i];
            let b = server.blocks;
            let x = 4 * server.files;
            let most = server.most;
            let a = i * most;
            let e = a + most;
            let asked = sending::due(s, disk, &owner[..b], &table[..x], &selected[a..e], out);
            let next = asked.session;
            let answer = asked.answer;
            Done {
                server: turns::with_link(server, i, next),
                answer,
            }
        }
    }
}
