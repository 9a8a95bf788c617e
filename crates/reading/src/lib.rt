// Reads from a stream into a buffer of a fixed length, as far as the stream or the buffer reaches.
#![tactic(auto)]

ghost use Rattle.std.specs.Prelude.{◌≤◌, ◌<◌, length, take, OnOk, OnErr};
ghost use Rattle.std.specs.Io.KnownBytes.{Consumes, IsAtEnd};

use std::io::{Read, Result};

// Reads until the buffer is full, the input ends or a read fails, and says how many bytes stand at the buffer's front,
// and how the last read failed, where one did. The bytes are the reader's next ones, in their order; without a failure
// there are fewer than the buffer holds only where the reader has no more, and a full buffer comes with no failure.
pub fn read_full<R: Read>(reader: &mut R, buf: &mut [u8]) -> (usize, Result<()>)
    ensures within { result.0 ≤ length buf.new }
    ensures bytes { Consumes (R.remaining reader.old) (R.remaining reader.new) (take result.0 buf.new) }
    ensures short { OnOk result.1 (result.0 < length buf.new → IsAtEnd (R.remaining reader.new)) }
    ensures failed { OnErr result.1 (result.0 < length buf.new) }
{
    let mut done = 0;
    while done < buf.len() {
        match reader.read(&mut buf[done..]) {
            Ok(0) => return (done, Ok(())),
            Ok(n) => done += n,
            Err(e) => return (done, Err(e)),
        }
    }
    (done, Ok(()))
}

#[cfg(test)]
mod tests {
    use super::*;
    use std::io::ErrorKind;
    use std::test::Fail;

    // Gives a byte at a time, and fails where none is left.
    #[derive(Drop)]
    struct Failing<'a>(&'a [u8]);

    impl Read for Failing<'_> {
        fn read(&mut self, buf: &mut [u8]) -> Result<usize> {
            let (Some((first, rest)), Some(place)) = (self.0.split_first(), buf.first_mut()) else {
                return Err(ErrorKind::Other.into());
            };
            *place = *first;
            self.0 = rest;
            Ok(1)
        }
    }

    #[test]
    fn reads_to_the_end_of_the_buffer_or_of_the_input(
        rt: HostRuntime,
    ) -> std::result::Result<(), Fail> {
        let mut reader = b"rou".chain(b"nds".as_slice());
        let mut buf = [0u8; 4];
        for (count, held) in [(4, b"roun"), (2, b"dsun"), (0, b"dsun")] {
            let (read, ended) = read_full(&mut reader, &mut buf);
            ended?;
            assert_eq!(rt; read, count);
            assert_eq!(rt; buf, *held);
        }
        Ok(())
    }

    #[test]
    fn a_read_that_fails_ends_the_input(rt: HostRuntime) {
        let mut buf = [0u8; 4];
        let (read, ended) = read_full(&mut Failing(b"ab"), &mut buf);
        assert_eq!(rt; read, 2);
        assert_eq!(rt; buf, *b"ab\0\0");
        assert!(rt; ended.is_err());
    }
}
