// The local refusals: sizes (33), an unsound state (35), the session (34), the output (32). Whether the state is sound is handed in.
ghost use Rattle.std.specs.Prelude.{◌≡◌, Bool, true, false, cond, ◌+◌, ◌*◌, ◌/◌, ◌≤◌, length};
ghost use Rattle.refusal.specs.Refusal.{numbered};
ghost use Rattle.server.specs.State.{words, lent};
ghost use Rattle.server.specs.Check.{lengths_of, sizes_fit, room_fits, fits_in, in_state, session_check, check_by};

use crate::Server;
use refusal::Refusal;

// The lengths of what is lent.
#[derive(Clone, Copy)]
pub struct Lengths {
    pub disk: usize,
    pub map: usize,
    pub owner: usize,
    pub table: usize,
    pub selected: usize,
    pub held: usize,
}

impl Lengths {
    // The lengths of these slices.
    pub fn of(
        disk: &[u8],
        map: &[u64],
        owner: &[u16],
        table: &[u32],
        selected: &[u32],
        held: &[u8],
    ) -> Lengths
        ensures { result ≡ lengths_of (lent disk.now map.now owner.now table.now selected.now held.now) }
    {
        Lengths {
            disk: disk.len(),
            map: map.len(),
            owner: owner.len(),
            table: table.len(),
            selected: selected.len(),
            held: held.len(),
        }
    }
}

// The sizes are in the table.
#[tactic(auto, unfolding(crate::specs::Check::sizes_fit))]
pub fn sizes_fit(blocks: usize, files: usize, sessions: usize, most: usize) -> bool
    ensures { result ≡ sizes_fit blocks files sessions most }
{
    matches!(blocks, 1..=4096)
        && matches!(files, 1..=256)
        && matches!(sessions, 1..=4)
        && matches!(most, 1..=50)
}

// What is lent is long enough.
#[tactic(auto, unfolding(crate::specs::Check::room_fits))]
fn room_fits(blocks: usize, files: usize, sessions: usize, most: usize, n: Lengths) -> bool
    requires { (blocks ≤ 4096) × (files ≤ 256) × (sessions ≤ 4) × (most ≤ 50) }
    ensures { result ≡ room_fits blocks files sessions most n.disk n.map n.owner n.table n.selected n.held }
{
    256 * blocks <= n.disk
        && (blocks + 63) / 64 <= n.map
        && blocks <= n.owner
        && 4 * files <= n.table
        && sessions * most <= n.selected
        && sessions * 258 <= n.held
}

// Sizes and lengths, 33.
#[tactic(auto, unfolding(crate::specs::Check::sizes_fit))]
pub fn fits_all(server: Server, n: Lengths) -> bool
    ensures { result ≡ fits_in server n.disk n.map n.owner n.table n.selected n.held }
{
    sizes_fit(server.blocks, server.files, server.sessions, server.most)
        && room_fits(server.blocks, server.files, server.sessions, server.most, n)
}

// The link is in the state that a call wants.
#[tactic(auto, unfolding(crate::specs::Check::in_state))]
fn in_state(wanted: bool, linked: bool) -> bool
    ensures { result ≡ in_state wanted linked }
{
    linked == wanted
}

// The session's number and state, 34; the output, 32. Else the session, counted from 0.
#[tactic(auto, unfolding(crate::specs::Check::session_check))]
fn check_session(server: Server, session: usize, wanted: bool, out: usize) -> Result<usize, Refusal>
    requires { server.sessions ≤ 4 }
    ensures { numbered result ≡ session_check server session wanted out }
{
    if session == 0 || server.sessions < session {
        return Err(Refusal::BadSession);
    }
    let i = session - 1;
    if !in_state(wanted, server.links[i].linked) {
        return Err(Refusal::BadSession);
    }
    if out < 258 {
        return Err(Refusal::ShortOutput);
    }
    Ok(i)
}

// The local refusals in their order; else the session that the call goes through for, counted from 0. `sound`: the state is none that 35 refuses.
#[tactic(auto, unfolding(crate::specs::Check::check_by, crate::specs::Check::sizes_fit))]
pub fn judge(
    server: Server,
    sound: bool,
    session: usize,
    wanted: bool,
    out: usize,
    n: Lengths,
) -> Result<usize, Refusal>
    ensures { numbered result ≡ check_by sound server session wanted out n.disk n.map n.owner n.table n.selected n.held }
{
    if !fits_all(server, n) {
        return Err(Refusal::BadSize);
    }
    if !sound {
        return Err(Refusal::Unsound);
    }
    check_session(server, session, wanted, out)
}
