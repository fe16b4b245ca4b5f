// The plain pair: any packet of types 0 to 17 with up to 2,047 information bytes, written to and read from a slice.
ghost use Rattle.std.specs.Prelude.{◌≡◌};
ghost use Rattle.refusal.specs.Refusal.{numbered};
ghost use Rattle.packet.specs.Packet.{write_answer, left_in, read_answer};

use numbers::store;
use refusal::Refusal;

// Writes a packet to the start of `out`, and says its length.
pub fn write_packet(kind: u8, info: &[u8], out: &mut [u8]) -> Result<usize, Refusal>
    ensures value { numbered result ≡ write_answer kind info.now out.old }
    ensures out_after { out.new ≡ left_in (numbered result) kind info.now out.old }
{
    if 17 < kind {
        return Err(Refusal::BadSize);
    }
    if 2047 < info.len() {
        return Err(Refusal::BadSize);
    }
    let size = 2 + info.len();
    if out.len() < size {
        return Err(Refusal::ShortOutput);
    }
    out[0] = (info.len() % 256) as u8;
    out[1] = kind + 32 * ((info.len() / 256) as u8);
    // not refused: `out` has room for the packet
    let _ = store(out, 2, info);
    Ok(size)
}

// Reads the packet at the front of `bytes`: its type and the length of its information, which begins at byte 2.
pub fn read_packet(bytes: &[u8]) -> Result<(u8, usize), Refusal>
    ensures { numbered result ≡ read_answer bytes.now }
{
    if bytes.len() < 2 {
        return Err(Refusal::BadSize);
    }
    let kind = bytes[1] % 32;
    let size = bytes[0] as usize + 256 * (bytes[1] as usize / 32);
    if 17 < kind {
        return Err(Refusal::BadSize);
    }
    if bytes.len() - 2 < size {
        return Err(Refusal::BadSize);
    }
    Ok((kind, size))
}
