//! Streams that give and take pieces, and fail.
ghost use Rattle.std.specs.Prelude.{◌≤◌, IfOk};

use std::io::{self, Error, ErrorKind, Read, Write};
use udp_edge::{StreamRead, take_whole, write_whole};

// Gives pieces of at most three bytes, and fails after so many of them.
#[derive(Drop)]
struct Piecewise {
    pieces: u32,
    fails: bool,
}

impl Piecewise {
    fn piece(&mut self, len: usize) -> io::Result<usize>
        ensures { IfOk result (λ count. count ≤ len) }
    {
        if self.pieces == 0 {
            return if self.fails {
                Err(Error::from(ErrorKind::Other))
            } else {
                Ok(0)
            };
        }
        self.pieces -= 1;
        Ok(len.min(3))
    }
}

impl Read for Piecewise {
    fn read(&mut self, buf: &mut [u8]) -> io::Result<usize> {
        self.piece(buf.len())
    }
}

impl Write for Piecewise {
    fn write(&mut self, buf: &[u8]) -> io::Result<usize> {
        self.piece(buf.len())
    }

    fn flush(&mut self) -> io::Result<()> {
        Ok(())
    }
}

#[test]
fn a_stream_is_read_to_its_end_or_limit(rt: HostRuntime) {
    for (pieces, fails, limit, want, len) in [
        (2, false, 6_u32, StreamRead::Whole, 6),
        (2, false, 5, StreamRead::Over, 6),
        (0, false, 0, StreamRead::Whole, 0),
        (2, true, 5, StreamRead::Over, 6),
        (1, true, 5, StreamRead::Failed, 3),
    ] {
        let mut reader = Piecewise { pieces, fails };
        let mut into = Vec::new(rt.alloc());
        let got = take_whole(&mut reader, u64::from(limit), &mut into);
        assert!(rt; got == want && into.len() == len);
    }
}

#[test]
fn a_stream_is_written_whole_or_fails(rt: HostRuntime) {
    for (pieces, fails, want) in [(2, true, true), (1, true, false), (1, false, false)] {
        let mut writer = Piecewise { pieces, fails };
        assert!(rt; write_whole(&mut writer, b"12345") == want);
    }
}
