// The server's call for what a script is doing: one of those that do not test 35 again, since the script keeps the state from call to call.
ghost use Rattle.std.specs.Prelude.{◌≡◌};
ghost use Rattle.server.specs.State.{lent, outcome};
ghost use Rattle.script.specs.Calling.{heard_of, still_of, call_of};

use crate::doing::Doing;
use input::parts::least;
use server::{Done, Server};
use session::reply::Answer;

// What is handed over of a line of `size` bytes: for a session the bytes from a place to another, or nothing.
fn handed(doing: Doing, size: usize) -> Option<(u32, usize, usize)>
    ensures { result ≡ heard_of doing size }
{
    match doing {
        Doing::Hearing(session, at, n) => {
            let e = least(n, size);
            Some((session, least(at, e), e))
        }
        _ => None,
    }
}

// A call that hands over nothing. It only reads the store.
fn still_call(
    server: Server,
    clock: u32,
    doing: Doing,
    disk: &[u8],
    map: &[u64],
    owner: &[u16],
    table: &[u32],
    selected: &mut [u32],
    held: &mut [u8],
    out: &mut [u8],
) -> Done
    ensures { outcome result (lent disk.now map.now owner.now table.now selected.new held.new) out.new
        ≡ still_of server clock doing (lent disk.now map.now owner.now table.now selected.old held.old) out.old }
{
    match doing {
        Doing::Rest => Done {
            server: server,
            answer: Answer::Quiet(0),
        },
        Doing::Opening(session) => server::login(
            server,
            true,
            disk,
            map,
            owner,
            table,
            &*selected,
            &*held,
            out,
            session as usize,
            clock,
        ),
        Doing::Dropping(session) => server::lose(
            server,
            true,
            disk,
            map,
            owner,
            table,
            selected,
            held,
            session as usize,
        ),
        Doing::Hearing(_, _, _) => Done {
            server: server,
            answer: Answer::Quiet(0),
        },
        Doing::Pumping(session) => server::request(
            server,
            true,
            disk,
            map,
            owner,
            table,
            &*selected,
            &*held,
            out,
            session as usize,
        ),
    }
}

// One call of the server, or none while resting.
pub(crate) fn call(
    server: Server,
    clock: u32,
    doing: Doing,
    bytes: &[u8],
    disk: &mut [u8],
    map: &mut [u64],
    owner: &mut [u16],
    table: &mut [u32],
    selected: &mut [u32],
    held: &mut [u8],
    out: &mut [u8],
) -> Done
    ensures { outcome result (lent disk.new map.new owner.new table.new selected.new held.new) out.new
        ≡ call_of server clock doing bytes.now (lent disk.old map.old owner.old table.old selected.old held.old) out.old }
{
    match handed(doing, bytes.len()) {
        None => still_call(
            server, clock, doing, &*disk, &*map, &*owner, &*table, selected, held, out,
        ),
        Some((session, from, to)) => server::receive(
            server,
            true,
            disk,
            map,
            owner,
            table,
            selected,
            held,
            out,
            session as usize,
            clock,
            &bytes[from..to],
        ),
    }
}
