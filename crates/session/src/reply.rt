// The packets that the server sends, but for DATA, and the answer of a call.
ghost use Rattle.std.specs.Prelude.{◌≡◌, [], ◌∷◌, ◌++◌, ◌≤◌, length};
ghost use Rattle.numbers.specs.Numbers.{two, four};
ghost use Rattle.session.specs.Reply.{sent_info, answered, told};

use numbers::write32;

// What a packet or a request is answered with. The refusals are the numbers that go out in the packet.
#[derive(Clone, Copy)]
pub enum Reply {
    Nothing,
    Closing,
    DataEnd,
    Login(u32),
    Go(u32, u32),
    UploadError(u8),
    Ack,
    Nak(u8),
    DownloadError(u8),
    Aborted,
    Completed,
    Selected(usize),
}

// The answer of a call: how many bytes it took, and whether nothing is sent, a packet of so many bytes, or the link is closed; or
// the number of a local refusal, which is what C is told.
#[derive(Clone, Copy)]
pub enum Answer {
    Quiet(usize),
    Sent(usize, usize),
    Closed(usize),
    Refused(u8),
}

// Writes a packet with the first `size` bytes of the information.
fn send_info(kind: u8, info: &[u8], taken: usize, out: &mut [u8]) -> Answer
    requires { (kind ≤ 17) × (length info.now ≤ 256) × (258 ≤ length out.old) }
    ensures { told result out.new ≡ sent_info kind info.now taken out.old }
{
    // neither refusal can occur: the type, the length and the room are as the writer wants them
    let _ = packet::plain::write_packet(kind, info, out);
    Answer::Sent(taken, 2 + info.len())
}

// A packet without information.
fn send_empty(kind: u8, taken: usize, out: &mut [u8]) -> Answer
    requires { (kind ≤ 17) × (258 ≤ length out.old) }
    ensures { told result out.new ≡ sent_info kind [] taken out.old }
{
    let info = [0u8; 1];
    send_info(kind, &info[..0], taken, out)
}

// A packet with one byte of information.
fn send_byte(kind: u8, number: u8, taken: usize, out: &mut [u8]) -> Answer
    requires { (kind ≤ 17) × (258 ≤ length out.old) }
    ensures { told result out.new ≡ sent_info kind (number ∷ []) taken out.old }
{
    let info = [number];
    send_info(kind, &info, taken, out)
}

// UL_GO_RESP.
#[tactic(auto, unfolding(numbers::specs::Numbers::stored_at))]
fn send_go(number: u32, offset: u32, taken: usize, out: &mut [u8]) -> Answer
    requires { 258 ≤ length out.old }
    ensures { told result out.new ≡ sent_info 4 (four number ++ four offset) taken out.old }
{
    let mut info = [0u8; 8];
    // not refused: the information has these bytes
    let _ = write32(&mut info, 0, number);
    let _ = write32(&mut info, 4, offset);
    send_info(4, &info, taken, out)
}

// LOGIN_RESP: the clock, and the flags: headers required, no saved selection, version 0.
#[tactic(auto, unfolding(numbers::specs::Numbers::stored_at))]
fn send_login(clock: u32, taken: usize, out: &mut [u8]) -> Answer
    requires { 258 ≤ length out.old }
    ensures { told result out.new ≡ sent_info 2 (four clock ++ 4 ∷ []) taken out.old }
{
    let mut info = [4u8; 5];
    // not refused: the information has these bytes
    let _ = write32(&mut info, 0, clock);
    send_info(2, &info, taken, out)
}

// SELECT_RESP.
fn send_selected(count: usize, taken: usize, out: &mut [u8]) -> Answer
    requires { 258 ≤ length out.old }
    ensures { told result out.new ≡ sent_info 17 (two count) taken out.old }
{
    let info = [(count % 256) as u8, (count / 256 % 256) as u8];
    send_info(17, &info, taken, out)
}

// Sends a reply; 32 and nothing written where the output is shorter than 258 bytes.
#[tactic(auto, unfolding(crate::specs::Reply::answered, crate::specs::Reply::tell))]
pub fn send(reply: Reply, taken: usize, out: &mut [u8]) -> Answer
    ensures { told result out.new ≡ answered reply taken out.old }
{
    if out.len() < 258 {
        return Answer::Refused(32);
    }
    match reply {
        Reply::Nothing => Answer::Quiet(taken),
        Reply::Closing => Answer::Closed(taken),
        Reply::DataEnd => send_empty(1, taken, out),
        Reply::Login(clock) => send_login(clock, taken, out),
        Reply::Go(number, offset) => send_go(number, offset, taken, out),
        Reply::UploadError(e) => send_byte(5, e, taken, out),
        Reply::Ack => send_empty(6, taken, out),
        Reply::Nak(e) => send_byte(7, e, taken, out),
        Reply::DownloadError(e) => send_byte(9, e, taken, out),
        Reply::Aborted => send_empty(10, taken, out),
        Reply::Completed => send_empty(11, taken, out),
        Reply::Selected(count) => send_selected(count, taken, out),
    }
}
