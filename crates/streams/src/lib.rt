// Reading and writing, as the programs do it: bytes into memory of their own, and bytes out of it. What a reader brings and whether a writer takes all is
// known only there; where the bytes that a reader has left or a writer holds are known, what was read is gone from them, and what was written stands there.
#![tactic(auto)]

ghost use Rattle.std.specs.Prelude.{◌≤◌, IfOk, length, take};
ghost use Rattle.std.specs.Io.KnownBytes.{Consumes};
ghost use Rattle.streams.specs.Streams.{Writes};

use std::io::{Read, Write};

// Reads once, at most as many bytes as there is room for, and says how many were read: none at the end of the input, and where the read fails.
pub fn read<R: Read>(reader: &mut R, input: &mut [u8]) -> usize
    ensures bound { result ≤ length input.new }
    ensures bytes { Consumes (R.remaining reader.old) (R.remaining reader.new) (take result input.new) }
{
    match reader.read(input) {
        Ok(n) => n,
        Err(_) => 0,
    }
}

// Writes all of the text and says true, or stops at the first write that takes nothing or fails and says false.
pub fn write_all<W: Write>(writer: &mut W, text: &[u8]) -> bool
    ensures { Writes (W.contents writer.old) (W.contents writer.new) text.now result }
{
    let mut done = 0;
    // a `while`: each turn goes on behind the bytes that the write took
    while done < text.len() {
        match writer.write(&text[done..]) {
            Ok(0) => return false,
            Ok(n) => done += n,
            Err(_) => return false,
        }
    }
    true
}

#[cfg(test)]
mod tests {
    use super::*;
    use std::io;

    // Takes or brings at most two bytes at a time, `room` times; then it fails.
    #[derive(Drop)]
    struct Pieces {
        room: usize,
        seen: usize,
    }

    impl Pieces {
        fn step(&mut self, most: usize) -> io::Result<usize>
            ensures { IfOk result (λ n. n ≤ most) }
        {
            if self.room == 0 {
                return Err(io::Error::from(io::ErrorKind::Other));
            }
            self.room -= 1;
            let n = most.min(2);
            self.seen = self.seen.wrapping_add(n);
            Ok(n)
        }
    }

    impl Read for Pieces {
        fn read(&mut self, buf: &mut [u8]) -> io::Result<usize> {
            self.step(buf.len())
        }
    }

    impl Write for Pieces {
        fn write(&mut self, buf: &[u8]) -> io::Result<usize> {
            self.step(buf.len())
        }

        fn flush(&mut self) -> io::Result<()> {
            Ok(())
        }
    }

    #[test]
    fn reads_what_there_is(rt: HostRuntime) {
        let mut reader: &[u8] = b"abc";
        let mut input = [0u8; 2];
        assert_eq!(rt; read(&mut reader, &mut input), 2);
        assert_eq!(rt; input, [97, 98]);
        assert_eq!(rt; read(&mut reader, &mut input), 1);
        assert_eq!(rt; read(&mut reader, &mut input), 0);
    }

    #[test]
    fn a_read_that_fails_brings_nothing(rt: HostRuntime) {
        let mut reader = Pieces { room: 1, seen: 0 };
        let mut input = [0u8; 5];
        assert_eq!(rt; read(&mut reader, &mut input), 2);
        assert_eq!(rt; read(&mut reader, &mut input), 0);
    }

    #[test]
    fn writes_in_pieces(rt: HostRuntime) {
        let mut writer = Pieces { room: 3, seen: 0 };
        assert!(rt; write_all(&mut writer, b"abcde"));
        assert_eq!(rt; writer.seen, 5);
        assert!(rt; !write_all(&mut writer, b"f"));
        assert!(rt; write_all(&mut writer, b""));
    }

    #[test]
    fn a_write_that_fails_or_takes_nothing_ends_it(rt: HostRuntime) {
        let mut writer = Pieces { room: 2, seen: 0 };
        assert!(rt; !write_all(&mut writer, b"abcde"));
        assert_eq!(rt; writer.seen, 4);
        let mut room = [0u8; 3];
        let mut full: &mut [u8] = &mut room;
        assert!(rt; !write_all(&mut full, b"abcde"));
        assert_eq!(rt; room, [97, 98, 99]);
    }
}
