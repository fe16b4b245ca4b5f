// The server: sessions over the store, and the calls of its driver: login, receive, request, lose. Every call has an answer, whatever it is handed; a
// local refusal (33, 35, 34, 32, in this order) changes nothing, takes no byte and writes nothing.
//
// `sound` says whether the state is none that 35 refuses. A driver that is handed the state has it tested at each call (crate tested). One that keeps it
// from call to call, the server that each call returned in the slices that it left, and shows it to nobody, says true: "35 .. never for a state that calls
// made from the empty store". With true on a state that is not sound the calls are safe too, and do what their definitions say.
#![tactic(auto)]

mod calls;
pub mod check;
mod turns;

ghost use Rattle.std.specs.Prelude.{◌≡◌};
ghost use Rattle.server.specs.State.{lent, outcome};
ghost use Rattle.server.specs.Calls.{receive_by, opened, login_by, lost, lose_by, request_by};

use carry::turn::Last;
use check::Lengths;
use session::reply::Answer;
use session::state::Session;

// The sizes, fixed when the server is made; the last number and time given; the sessions.
#[derive(Clone, Copy)]
pub struct Server {
    pub blocks: usize,
    pub files: usize,
    pub sessions: usize,
    pub most: usize,
    pub last: Last,
    pub links: [Session; 4],
}

// A call's answer, with the server after it.
#[derive(Clone, Copy)]
pub struct Done {
    pub server: Server,
    pub answer: Answer,
}

// Takes bytes of a session's link, up to the end of one packet, and answers it.
pub fn receive(
    server: Server,
    sound: bool,
    disk: &mut [u8],
    map: &mut [u64],
    owner: &mut [u16],
    table: &mut [u32],
    selected: &mut [u32],
    held: &mut [u8],
    out: &mut [u8],
    session: usize,
    clock: u32,
    input: &[u8],
) -> Done
    ensures { outcome result (lent disk.new map.new owner.new table.new selected.new held.new) out.new
        ≡ receive_by sound server (lent disk.old map.old owner.old table.old selected.old held.old) out.old session clock input.now }
{
    let n = Lengths::of(disk, map, owner, table, selected, held);
    match check::judge(server, sound, session, true, out.len(), n) {
        Err(refusal) => Done {
            server,
            answer: Answer::Refused(refusal.into()),
        },
        Ok(i) => calls::step(
            server, i, clock, input, disk, map, owner, table, selected, held, out,
        ),
    }
}

// A link is there: the session begins, and LOGIN_RESP goes out.
pub fn login(
    server: Server,
    sound: bool,
    disk: &[u8],
    map: &[u64],
    owner: &[u16],
    table: &[u32],
    selected: &[u32],
    held: &[u8],
    out: &mut [u8],
    session: usize,
    clock: u32,
) -> Done
    ensures { opened result out.new
        ≡ login_by sound server (lent disk.now map.now owner.now table.now selected.now held.now) out.old session clock }
{
    let n = Lengths::of(disk, map, owner, table, selected, held);
    let k = check::judge(server, sound, session, false, out.len(), n);
    calls::on_login(k, server, out, clock)
}

// The link is lost: the session is closed, its unfinished packet and its selection are forgotten, and a partial stays as it is.
pub fn lose(
    server: Server,
    sound: bool,
    disk: &[u8],
    map: &[u64],
    owner: &[u16],
    table: &[u32],
    selected: &mut [u32],
    held: &mut [u8],
    session: usize,
) -> Done
    ensures { lost result selected.new held.new
        ≡ lose_by sound server (lent disk.now map.now owner.now table.now selected.old held.old) session }
{
    let n = Lengths::of(disk, map, owner, table, selected, held);
    let k = check::judge(server, sound, session, true, 258, n);
    calls::on_lose(k, server, selected, held)
}

// What is due on a session's downlink: one packet, or nothing.
pub fn request(
    server: Server,
    sound: bool,
    disk: &[u8],
    map: &[u64],
    owner: &[u16],
    table: &[u32],
    selected: &[u32],
    held: &[u8],
    out: &mut [u8],
    session: usize,
) -> Done
    ensures { opened result out.new
        ≡ request_by sound server (lent disk.now map.now owner.now table.now selected.now held.now) out.old session }
{
    let n = Lengths::of(disk, map, owner, table, selected, held);
    let k = check::judge(server, sound, session, true, out.len(), n);
    calls::on_request(k, server, disk, owner, table, selected, out)
}
