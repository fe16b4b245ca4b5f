// The line that is printed for an answer of the server.
ghost use Rattle.std.specs.Prelude.{◌≡◌, length, take};
ghost use Rattle.lines.specs.Lines.{printed, printed_in, packet_line};
ghost use Rattle.script.specs.Printing.{show_of};

use session::reply::Answer;

// The line of a packet of `size` bytes at the front of the output.
fn show_packet(session: u32, size: usize, out: &[u8], text: &mut [u8]) -> usize
    ensures { printed result text.new ≡ printed_in (packet_line session (take size out.now)) text.old }
{
    if size < out.len() {
        return lines::packet_line(session, &out[..size], text);
    }
    lines::packet_line(session, out, text)
}

// The line of an answer: a packet sent, a link closed or a refusal has one.
pub(crate) fn show(session: u32, answer: Answer, out: &[u8], text: &mut [u8]) -> usize
    ensures { printed result text.new ≡ show_of session answer out.now text.old }
{
    match answer {
        Answer::Quiet(_) => 0,
        Answer::Sent(_, size) => show_packet(session, size, out, text),
        Answer::Closed(_) => lines::closed_line(session, text),
        Answer::Refused(number) => lines::refused_line(session, number, text),
    }
}
