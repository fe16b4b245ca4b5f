// The server's state as 64-bit words in the caller's memory. `server_at` and `encode` alone know where a word stands.
ghost use Rattle.std.specs.Prelude.{◌≡◌, [], ◌∷◌, true, cond, Ok, Err, ◌+◌, ◌≤◌, ◌<◌, length};
ghost use Rattle.std.proofs.lemmas.List.Edits.{sets};
ghost use Rattle.session.specs.declared.state.Downlink.TheVariants as down;
ghost use Rattle.refusal.specs.Refusal.{numbered};
ghost use Rattle.server.specs.Check.{fits_in};
ghost use Rattle.embed.specs.Fit.{UpFits, DownFits, SessionFits, LastFits};
ghost use Rattle.embed.specs.Words.{flag, up_words, listing_case, listed_word, down_words, session_words, head_words, encode_of, low, up_of, down_of, session_at, server_at, same_words, is_state, ready_of};
ghost use Rattle.embed.specs.Calls.{map_fits};

use carry::turn::Last;
use refusal::Refusal;
use server::Server;
use server::check::Lengths;
use session::state::{Downlink, Listed, Session, Uplink};

// ---- numbers

fn word(n: usize) -> u64
    ensures { result ≡ n }
{
    n as u64
}

fn word32(n: u32) -> u64
    ensures value { result ≡ n }
    ensures n_bound { n < 4294967296 }
{
    n as u64
}

fn flag_word(b: bool) -> u64
    ensures { result ≡ flag b }
{
    if b {
        return 1;
    }
    0
}

fn number(w: u64) -> usize
    ensures { result ≡ w }
{
    w as usize
}

fn low32(w: u64) -> u32
    ensures { result ≡ low w }
{
    (w % 4294967296) as u32
}

// ---- writing

fn write4(state: &mut [u64], at: usize, a: u64, b: u64, c: u64, d: u64)
    requires { (at ≤ 50) × (at + 4 ≤ length state.old) }
    ensures { state.new ≡ sets state.old at (a ∷ b ∷ c ∷ d ∷ []) }
{
    state[at] = a;
    state[at + 1] = b;
    state[at + 2] = c;
    state[at + 3] = d;
}

fn write3(state: &mut [u64], at: usize, a: u64, b: u64, c: u64)
    requires { (at ≤ 51) × (at + 3 ≤ length state.old) }
    ensures { state.new ≡ sets state.old at (a ∷ b ∷ c ∷ []) }
{
    state[at] = a;
    state[at + 1] = b;
    state[at + 2] = c;
}

fn write_up(state: &mut [u64], at: usize, up: Uplink)
    requires { (at ≤ 50) × (at + 4 ≤ length state.old) }
    ensures state_after { state.new ≡ sets state.old at (up_words up) }
    ensures up_fits { UpFits up }
{
    match up {
        Uplink::Idle => write4(state, at, 0, 0, 0, 0),
        Uplink::Receiving {
            place,
            offset,
            received,
        } => write4(state, at, 1, word(place), word32(offset), word32(received)),
        Uplink::Ignoring => write4(state, at, 2, 0, 0, 0),
    }
}

// The case of a directory: that of the short form, or the one behind it.
fn case_word(short: u64, long: bool) -> u64
    requires { short < 8 }
    ensures { result ≡ cond long (short + 1) short }
{
    if long {
        return short + 1;
    }
    short
}

fn write_listing(state: &mut [u64], at: usize, listed: Listed, long: bool, done: usize, sent: usize)
    requires { (at ≤ 50) × (at + 4 ≤ length state.old) }
    ensures { state.new ≡ sets state.old at (listing_case listed long ∷ listed_word listed ∷ done ∷ sent ∷ []) }
{
    match listed {
        Listed::One(place) => write4(
            state,
            at,
            case_word(4, long),
            word(place),
            word(done),
            word(sent),
        ),
        Listed::Selected(first) => write4(
            state,
            at,
            case_word(6, long),
            word(first),
            word(done),
            word(sent),
        ),
    }
}

fn write_down(state: &mut [u64], at: usize, down: Downlink)
    requires { (at ≤ 50) × (at + 4 ≤ length state.old) }
    ensures state_after { state.new ≡ sets state.old at (down_words down) }
    ensures down_fits { DownFits down }
{
    match down {
        Downlink::Idle => write4(state, at, 0, 0, 0, 0),
        Downlink::Sending {
            place,
            offset,
            sent,
        } => write4(state, at, 1, word(place), word32(offset), word32(sent)),
        Downlink::Ended { place } => write4(state, at, 2, word(place), 0, 0),
        Downlink::Aborting { place } => write4(state, at, 3, word(place), 0, 0),
        Downlink::Listing {
            listed,
            long,
            done,
            sent,
        } => write_listing(state, at, listed, long, done, sent),
    }
}

// The 12 words of a session.
fn write_session(state: &mut [u64], at: usize, s: Session)
    requires { (at ≤ 42) × (at + 12 ≤ length state.old) }
    ensures state_after { state.new ≡ sets state.old at (session_words s) }
    ensures session_fits { SessionFits s }
{
    let up = s.up;
    let down = s.down;
    state[at] = flag_word(s.linked);
    write_up(state, at + 1, up);
    write_down(state, at + 5, down);
    write3(state, at + 9, word(s.held), word(s.count), word(s.next));
}

// The 6 words before the sessions.
fn write_head(state: &mut [u64], server: Server)
    requires { 54 ≤ length state.old }
    ensures state_after { state.new ≡ sets state.old 0 (head_words server) }
    ensures last_fits { LastFits server.last }
{
    let last = server.last;
    state[0] = word(server.blocks);
    state[1] = word(server.files);
    state[2] = word(server.sessions);
    state[3] = word(server.most);
    state[4] = word32(last.number);
    state[5] = word32(last.time);
}

// Writes a server's words: they are a state, since the server's numbers fit their types.
pub(crate) fn encode(server: Server, state: &mut [u64])
    requires { 54 ≤ length state.old }
    ensures state_after { state.new ≡ encode_of server state.old }
    ensures state_after_2 { is_state state.new ≡ true }
{
    write_head(state, server);
    write_session(state, 6, server.links[0]);
    write_session(state, 18, server.links[1]);
    write_session(state, 30, server.links[2]);
    write_session(state, 42, server.links[3]);
}

// ---- reading

fn up_of(case: u64, place: u64, offset: u64, received: u64) -> Uplink
    ensures { result ≡ up_of case place offset received }
{
    if case == 1 {
        return Uplink::Receiving {
            place: number(place),
            offset: low32(offset),
            received: low32(received),
        };
    }
    if case == 2 {
        return Uplink::Ignoring;
    }
    Uplink::Idle
}

fn listing_of(listed: Listed, long: bool, done: u64, sent: u64) -> Downlink
    ensures { result ≡ down.Listing listed long done sent }
{
    Downlink::Listing {
        listed: listed,
        long: long,
        done: number(done),
        sent: number(sent),
    }
}

fn down_of(case: u64, place: u64, offset: u64, sent: u64) -> Downlink
    ensures { result ≡ down_of case place offset sent }
{
    if case == 1 {
        return Downlink::Sending {
            place: number(place),
            offset: low32(offset),
            sent: low32(sent),
        };
    }
    if case == 2 {
        return Downlink::Ended {
            place: number(place),
        };
    }
    if case == 3 {
        return Downlink::Aborting {
            place: number(place),
        };
    }
    if case == 4 {
        return listing_of(Listed::One(number(place)), false, offset, sent);
    }
    if case == 5 {
        return listing_of(Listed::One(number(place)), true, offset, sent);
    }
    if case == 6 {
        return listing_of(Listed::Selected(number(place)), false, offset, sent);
    }
    if case == 7 {
        return listing_of(Listed::Selected(number(place)), true, offset, sent);
    }
    Downlink::Idle
}

// A session's 12 words.
fn session_at(state: &[u64], at: usize) -> Session
    requires { (at ≤ 42) × (at + 12 ≤ length state.now) }
    ensures { result ≡ session_at state.now at }
{
    let up = up_of(state[at + 1], state[at + 2], state[at + 3], state[at + 4]);
    let down = down_of(state[at + 5], state[at + 6], state[at + 7], state[at + 8]);
    Session {
        linked: state[at] == 1,
        up: up,
        down: down,
        held: number(state[at + 9]),
        count: number(state[at + 10]),
        next: number(state[at + 11]),
    }
}

// The server that words are read as.
pub(crate) fn server_at(state: &[u64]) -> Server
    requires { 54 ≤ length state.now }
    ensures { result ≡ server_at state.now }
{
    let a = session_at(state, 6);
    let b = session_at(state, 18);
    let c = session_at(state, 30);
    let d = session_at(state, 42);
    Server {
        blocks: number(state[0]),
        files: number(state[1]),
        sessions: number(state[2]),
        most: number(state[3]),
        last: Last {
            number: low32(state[4]),
            time: low32(state[5]),
        },
        links: [a, b, c, d],
    }
}

// ---- which words are a state

// The words are those of the server that they are read as.
fn is_state(state: &[u64]) -> bool
    requires { 54 ≤ length state.now }
    ensures { result ≡ is_state state.now }
{
    let mut words = [0u64; 54];
    let server = server_at(state);
    encode(server, &mut words);
    state[..54] == words[..]
}

// What is lent fits the sizes in the words, or 33; the words are a state, or 35.
fn judge(state: &[u64], fit: bool) -> Result<(), Refusal>
    requires { 54 ≤ length state.now }
    ensures { numbered result ≡ cond fit (cond (is_state state.now) (Ok tt) (Err 35)) (Err 33) }
{
    if !fit {
        return Err(Refusal::BadSize);
    }
    if !is_state(state) {
        return Err(Refusal::Unsound);
    }
    Ok(())
}

// The room for the words and for the counts, the sizes and the lengths of all else that is lent, 33; the words, 35.
pub(crate) fn check(
    state: &[u64],
    counts: usize,
    disk: usize,
    map: usize,
    owner: usize,
    table: usize,
    selected: usize,
    held: usize,
) -> Result<(), Refusal>
    ensures { numbered result ≡ ready_of (fits_in (server_at state.now) disk map owner table selected held) state.now counts }
{
    if state.len() < 54 {
        return Err(Refusal::BadSize);
    }
    if counts < 2 {
        return Err(Refusal::BadSize);
    }
    let n = Lengths {
        disk: disk,
        map: map,
        owner: owner,
        table: table,
        selected: selected,
        held: held,
    };
    let server = server_at(state);
    judge(state, server::check::fits_all(server, n))
}

// The sizes, and a map that is long enough for them.
fn map_fits(server: Server, map: usize) -> bool
    ensures { result ≡ map_fits server map }
{
    if server::check::sizes_fit(server.blocks, server.files, server.sessions, server.most) {
        return (server.blocks + 63) / 64 <= map;
    }
    false
}

// The same where the map alone is lent besides.
pub(crate) fn check_map(state: &[u64], counts: usize, map: usize) -> Result<(), Refusal>
    ensures { numbered result ≡ ready_of (map_fits (server_at state.now) map) state.now counts }
{
    if state.len() < 54 {
        return Err(Refusal::BadSize);
    }
    if counts < 2 {
        return Err(Refusal::BadSize);
    }
    let server = server_at(state);
    judge(state, map_fits(server, map))
}
