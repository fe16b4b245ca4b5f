// What a script is doing on a line, and what it does after an answer of the server.
ghost use Rattle.std.specs.Prelude.{◌≡◌};
ghost use Rattle.script.specs.Doing.{session_of, rests_of, goes_on, heard_on, pumped_on, after_of};

use input::parts::rest;
use session::reply::Answer;

// Nothing; or opening or dropping a session's link, handing over the bytes of a line from a place to their number, or asking for what is due.
#[derive(Clone, Copy)]
pub enum Doing {
    Rest,
    Opening(u32),
    Dropping(u32),
    Hearing(u32, usize, usize),
    Pumping(u32),
}

// Whether nothing is being done.
#[tactic(auto, unfolding(crate::specs::Doing::rests_of))]
pub fn rests(doing: Doing) -> bool
    ensures { result ≡ rests_of doing }
{
    matches!(doing, Doing::Rest)
}

// The session that it is done for, 0 for none.
pub(crate) fn session_of(doing: Doing) -> u32
    ensures { result ≡ session_of doing }
{
    match doing {
        Doing::Rest => 0,
        Doing::Opening(session) => session,
        Doing::Dropping(session) => session,
        Doing::Hearing(session, _, _) => session,
        Doing::Pumping(session) => session,
    }
}

// The next bytes of the line, or, with none left, what is due.
fn go_on(session: u32, at: usize, n: usize, size: usize, taken: usize) -> Doing
    ensures { result ≡ goes_on session at n size taken }
{
    if taken < rest(at, n, size) {
        return Doing::Hearing(session, at + taken, n);
    }
    Doing::Pumping(session)
}

// After bytes of a line were handed over.
fn heard_on(session: u32, at: usize, n: usize, size: usize, answer: Answer) -> Doing
    ensures { result ≡ heard_on session at n size answer }
{
    match answer {
        Answer::Quiet(taken) => go_on(session, at, n, size, taken),
        Answer::Sent(taken, _) => go_on(session, at, n, size, taken),
        Answer::Closed(_) => Doing::Rest,
        Answer::Refused(_) => Doing::Rest,
    }
}

// After a request: on until nothing is due.
fn pumped_on(session: u32, answer: Answer) -> Doing
    ensures { result ≡ pumped_on session answer }
{
    match answer {
        Answer::Quiet(_) => Doing::Rest,
        Answer::Sent(_, _) => Doing::Pumping(session),
        Answer::Closed(_) => Doing::Rest,
        Answer::Refused(_) => Doing::Rest,
    }
}

// What is done after an answer, with `size` bytes lent.
pub(crate) fn after(doing: Doing, answer: Answer, size: usize) -> Doing
    ensures { result ≡ after_of doing answer size }
{
    match doing {
        Doing::Rest => Doing::Rest,
        Doing::Opening(_) => Doing::Rest,
        Doing::Dropping(_) => Doing::Rest,
        Doing::Hearing(session, at, n) => heard_on(session, at, n, size, answer),
        Doing::Pumping(session) => pumped_on(session, answer),
    }
}
