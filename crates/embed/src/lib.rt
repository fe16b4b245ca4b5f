// The server for programs in other languages, such as modem software: the same calls under plain names, on numbers and slices of numbers alone.
//
// The server's state stands in the caller's memory as 64-bit words. Every function takes any slices and any numbers and asks nothing of
// its caller. A call answers by a number: 0 nothing is sent, 1 a packet is in the output, 2 the link is closed, 32 to 35 refused, where
// nothing at all changes. The words that a call leaves are a state again. The crate embed_c gives these functions to C.
#![tactic(auto)]

mod words;

ghost use Rattle.std.specs.Prelude.{◌≡◌, true, ◌≤◌, length};
ghost use Rattle.server.specs.State.{lent};
ghost use Rattle.server.specs.Making.{emptied};
ghost use Rattle.embed.specs.Words.{is_state};
ghost use Rattle.embed.specs.Calls.{told, tell_of, received, receive_by, sent, open_by, request_by, gone, lose_by, begun, make_by, filled, memory_by, with_counts, map_fits, free_in, free_by};

use server::Server;
use session::reply::Answer;

// ---- memory

// The number of words of the server's state.
pub fn figmorella_state_words() -> usize
    ensures { result ≡ 54 }
{
    54
}

// How long each slice must be for these sizes, in 7 numbers: state, disk, map, owner, table, selected, held. 0, or 33 for sizes outside
// the table or a short `need`.
// A number and no `Result`, here as in `figmorella_make`: C is told it.
pub fn figmorella_memory(
    blocks: usize,
    files: usize,
    sessions: usize,
    most: usize,
    need: &mut [usize],
) -> u8
    ensures { filled result need.new ≡ memory_by blocks files sessions most need.old }
{
    if need.len() < 7 {
        return 33;
    }
    if server::check::sizes_fit(blocks, files, sessions, most) {
        need[0] = 54;
        need[1] = 256 * blocks;
        need[2] = (blocks + 63) / 64;
        need[3] = blocks;
        need[4] = 4 * files;
        need[5] = sessions * most;
        need[6] = sessions * 258;
        return 0;
    }
    33
}

// ---- answers

fn write_counts(counts: &mut [usize], taken: usize, size: usize)
    requires { 2 ≤ length counts.old }
    ensures { counts.new ≡ with_counts taken size counts.old }
{
    counts[0] = taken;
    counts[1] = size;
}

// The words and the counts are written, but not on a refusal; the answer's number.
fn tell(answer: Answer, server: Server, state: &mut [u64], counts: &mut [usize]) -> u8
    requires { (54 ≤ length state.old) × (2 ≤ length counts.old) × (is_state state.old ≡ true) }
    ensures counts_after { told result state.new counts.new ≡ tell_of answer server state.old counts.old }
    ensures state_after { is_state state.new ≡ true }
{
    match answer {
        Answer::Quiet(taken) => {
            words::encode(server, state);
            write_counts(counts, taken, 0);
            0
        }
        Answer::Sent(taken, size) => {
            words::encode(server, state);
            write_counts(counts, taken, size);
            1
        }
        Answer::Closed(taken) => {
            words::encode(server, state);
            write_counts(counts, taken, 0);
            2
        }
        Answer::Refused(n) => n,
    }
}

// ---- calls

// A server with these sizes, over an empty store: 0, or 33 and nothing changed.
pub fn figmorella_make(
    blocks: usize,
    files: usize,
    sessions: usize,
    most: usize,
    state: &mut [u64],
    disk: &[u8],
    map: &mut [u64],
    owner: &mut [u16],
    table: &mut [u32],
    selected: &mut [u32],
    held: &mut [u8],
) -> u8
    ensures held_after { begun result state.new (emptied map.new owner.new table.new selected.new held.new)
        ≡ make_by blocks files sessions most state.old (length disk.now) (emptied map.old owner.old table.old selected.old held.old) }
    ensures state_after { result ≡ 0 → is_state state.new ≡ true }
{
    if state.len() < 54 {
        return 33;
    }
    match making::make(
        blocks, files, sessions, most, disk, map, owner, table, selected, held,
    ) {
        // nothing is written
        Err(refused) => refused.into(),
        Ok(server) => {
            words::encode(server, state);
            0
        }
    }
}

// A link is there: the session begins, and LOGIN_RESP goes out.
pub fn figmorella_open(
    state: &mut [u64],
    disk: &[u8],
    map: &[u64],
    owner: &[u16],
    table: &[u32],
    selected: &[u32],
    held: &[u8],
    out: &mut [u8],
    counts: &mut [usize],
    session: usize,
    clock: u32,
) -> u8
    ensures out_after { sent (told result state.new counts.new) out.new
        ≡ open_by state.old counts.old (lent disk.now map.now owner.now table.now selected.now held.now) out.old session clock }
    ensures state_after { is_state state.old ≡ true → is_state state.new ≡ true }
{
    match words::check(
        &*state,
        counts.len(),
        disk.len(),
        map.len(),
        owner.len(),
        table.len(),
        selected.len(),
        held.len(),
    ) {
        Err(refusal) => refusal.into(),
        Ok(()) => {
            let server = words::server_at(&*state);
            let done = tested::login(
                server, disk, map, owner, table, selected, held, out, session, clock,
            );
            let opened = done.server;
            let answer = done.answer;
            tell(answer, opened, state, counts)
        }
    }
}

// Takes bytes of a session's link, up to the end of one packet, and answers it.
pub fn figmorella_receive(
    state: &mut [u64],
    disk: &mut [u8],
    map: &mut [u64],
    owner: &mut [u16],
    table: &mut [u32],
    selected: &mut [u32],
    held: &mut [u8],
    out: &mut [u8],
    counts: &mut [usize],
    session: usize,
    clock: u32,
    input: &[u8],
) -> u8
    ensures out_after { received (told result state.new counts.new) (lent disk.new map.new owner.new table.new selected.new held.new) out.new
        ≡ receive_by state.old counts.old (lent disk.old map.old owner.old table.old selected.old held.old) out.old session clock input.now }
    ensures state_after { is_state state.old ≡ true → is_state state.new ≡ true }
{
    match words::check(
        &*state,
        counts.len(),
        disk.len(),
        map.len(),
        owner.len(),
        table.len(),
        selected.len(),
        held.len(),
    ) {
        Err(refusal) => refusal.into(),
        Ok(()) => {
            let server = words::server_at(&*state);
            let done = tested::receive(
                server, disk, map, owner, table, selected, held, out, session, clock, input,
            );
            let heard = done.server;
            let answer = done.answer;
            tell(answer, heard, state, counts)
        }
    }
}

// What is due on a session's downlink: one packet, or nothing.
pub fn figmorella_request(
    state: &mut [u64],
    disk: &[u8],
    map: &[u64],
    owner: &[u16],
    table: &[u32],
    selected: &[u32],
    held: &[u8],
    out: &mut [u8],
    counts: &mut [usize],
    session: usize,
) -> u8
    ensures out_after { sent (told result state.new counts.new) out.new
        ≡ request_by state.old counts.old (lent disk.now map.now owner.now table.now selected.now held.now) out.old session }
    ensures state_after { is_state state.old ≡ true → is_state state.new ≡ true }
{
    match words::check(
        &*state,
        counts.len(),
        disk.len(),
        map.len(),
        owner.len(),
        table.len(),
        selected.len(),
        held.len(),
    ) {
        Err(refusal) => refusal.into(),
        Ok(()) => {
            let server = words::server_at(&*state);
            let done = tested::request(
                server, disk, map, owner, table, selected, held, out, session,
            );
            let asked = done.server;
            let answer = done.answer;
            tell(answer, asked, state, counts)
        }
    }
}

// The link is lost: the session is closed.
pub fn figmorella_lose(
    state: &mut [u64],
    disk: &[u8],
    map: &[u64],
    owner: &[u16],
    table: &[u32],
    selected: &mut [u32],
    held: &mut [u8],
    counts: &mut [usize],
    session: usize,
) -> u8
    ensures held_after { gone (told result state.new counts.new) selected.new held.new
        ≡ lose_by state.old counts.old (lent disk.now map.now owner.now table.now selected.old held.old) session }
    ensures state_after { is_state state.old ≡ true → is_state state.new ≡ true }
{
    match words::check(
        &*state,
        counts.len(),
        disk.len(),
        map.len(),
        owner.len(),
        table.len(),
        selected.len(),
        held.len(),
    ) {
        Err(refusal) => refusal.into(),
        Ok(()) => {
            let server = words::server_at(&*state);
            let done = tested::lose(server, disk, map, owner, table, selected, held, session);
            let closed = done.server;
            let answer = done.answer;
            tell(answer, closed, state, counts)
        }
    }
}

// ---- free blocks

// The free blocks of a server's map, and all its blocks.
fn free_in(server: Server, map: &[u64], counts: &mut [usize])
    requires { (map_fits server (length map.now) ≡ true) × (2 ≤ length counts.old) }
    ensures { counts.new ≡ free_in server map.now counts.old }
{
    let b = server.blocks;
    let w = (b + 63) / 64;
    let free = blocks::free_count(&map[..w]);
    write_counts(counts, free, b);
}

// The number of free blocks and the number of all blocks, as two counts.
pub fn figmorella_free(state: &[u64], map: &[u64], counts: &mut [usize]) -> u8
    ensures { filled result counts.new ≡ free_by state.now map.now counts.old }
{
    match words::check_map(state, counts.len(), map.len()) {
        Err(refusal) => refusal.into(),
        Ok(()) => {
            free_in(words::server_at(state), map, counts);
            0
        }
    }
}
