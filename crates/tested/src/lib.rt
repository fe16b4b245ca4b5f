// The server's calls for a driver that is handed the state: each tests the whole of it first, and refuses by 35 where its facts are broken. Every call has
// an answer, whatever it is handed.
#![tactic(auto)]

ghost use Rattle.std.specs.Prelude.{◌≡◌, false, cond, ◌+◌, ◌*◌, ◌/◌, ◌≤◌, length};
ghost use Rattle.server.specs.State.{lent, outcome, words};
ghost use Rattle.server.specs.Check.{fits, sound_parts};
ghost use Rattle.server.specs.Calls.{receive_of, opened, login_of, lost, lose_of, request_of};

use server::check::Lengths;
use server::{Done, Server};

// The facts of 35, of the store and of the sessions, in slices that have room for them.
#[tactic(auto, unfolding(server::specs::Check::sound_parts))]
fn facts_hold(
    server: Server,
    map: &[u64],
    owner: &[u16],
    table: &[u32],
    selected: &[u32],
    held: &[u8],
) -> bool
    requires { (server.blocks ≤ 4096) × (server.files ≤ 256) × (words server.blocks ≤ length map.now) × (server.blocks ≤ length owner.now)
        × (4 * server.files ≤ length table.now) }
    ensures { result ≡ sound_parts server map.now owner.now table.now selected.now held.now }
{
    let b = server.blocks;
    let w = (b + 63) / 64;
    let x = 4 * server.files;
    let last = server.last;
    files::sound(&map[..w], &owner[..b], &table[..x], last.number, last.time)
        && links::links_sound(
            server.links,
            server.sessions,
            server.most,
            &table[..x],
            selected,
            held,
        )
}

// Whether a state is none that 35 refuses; not where its sizes or lengths are refused by 33.
pub fn is_sound(
    server: Server,
    disk: usize,
    map: &[u64],
    owner: &[u16],
    table: &[u32],
    selected: &[u32],
    held: &[u8],
) -> bool
    ensures { result ≡ cond (fits server disk map.now owner.now table.now selected.now held.now)
        (sound_parts server map.now owner.now table.now selected.now held.now) false }
{
    let n = Lengths {
        disk,
        map: map.len(),
        owner: owner.len(),
        table: table.len(),
        selected: selected.len(),
        held: held.len(),
    };
    server::check::fits_all(server, n) && facts_hold(server, map, owner, table, selected, held)
}

// Takes bytes of a session's link, up to the end of one packet, and answers it.
pub fn receive(
    server: Server,
    disk: &mut [u8],
    map: &mut [u64],
    owner: &mut [u16],
    table: &mut [u32],
    selected: &mut [u32],
    held: &mut [u8],
    out: &mut [u8],
    session: usize,
    clock: u32,
    input: &[u8],
) -> Done
    ensures { outcome result (lent disk.new map.new owner.new table.new selected.new held.new) out.new
        ≡ receive_of server (lent disk.old map.old owner.old table.old selected.old held.old) out.old session clock input.now }
{
    let sound = is_sound(
        server,
        disk.len(),
        &*map,
        &*owner,
        &*table,
        &*selected,
        &*held,
    );
    server::receive(
        server, sound, disk, map, owner, table, selected, held, out, session, clock, input,
    )
}

// A link is there: the session begins, and LOGIN_RESP goes out.
pub fn login(
    server: Server,
    disk: &[u8],
    map: &[u64],
    owner: &[u16],
    table: &[u32],
    selected: &[u32],
    held: &[u8],
    out: &mut [u8],
    session: usize,
    clock: u32,
) -> Done
    ensures { opened result out.new
        ≡ login_of server (lent disk.now map.now owner.now table.now selected.now held.now) out.old session clock }
{
    let sound = is_sound(server, disk.len(), map, owner, table, selected, held);
    server::login(
        server, sound, disk, map, owner, table, selected, held, out, session, clock,
    )
}

// The link is lost: the session is closed, its unfinished packet and its selection are forgotten, and a partial stays as it is.
pub fn lose(
    server: Server,
    disk: &[u8],
    map: &[u64],
    owner: &[u16],
    table: &[u32],
    selected: &mut [u32],
    held: &mut [u8],
    session: usize,
) -> Done
    ensures { lost result selected.new held.new
        ≡ lose_of server (lent disk.now map.now owner.now table.now selected.old held.old) session }
{
    let sound = is_sound(server, disk.len(), map, owner, table, &*selected, &*held);
    server::lose(
        server, sound, disk, map, owner, table, selected, held, session,
    )
}

// What is due on a session's downlink: one packet, or nothing.
pub fn request(
    server: Server,
    disk: &[u8],
    map: &[u64],
    owner: &[u16],
    table: &[u32],
    selected: &[u32],
    held: &[u8],
    out: &mut [u8],
    session: usize,
) -> Done
    ensures { opened result out.new
        ≡ request_of server (lent disk.now map.now owner.now table.now selected.now held.now) out.old session }
{
    let sound = is_sound(server, disk.len(), map, owner, table, selected, held);
    server::request(
        server, sound, disk, map, owner, table, selected, held, out, session,
    )
}
