use crate::read_full;
use std::io;
use std::io::Read;

// Gives at most three bytes a call, and fails once, after `before` calls.
#[derive(Drop)]
struct Pieces {
    bytes: &'static [u8],
    before: Option<usize>,
}

impl Read for Pieces {
    fn read(&mut self, buf: &mut [u8]) -> io::Result<usize> {
        if self.before == Some(0) {
            self.before = None;
            return Err(io::ErrorKind::Other.into());
        }
        self.before = self.before.map(|n| n.saturating_sub(1));
        let n = self.bytes.len().min(buf.len()).min(3);
        buf[..n].copy_from_slice(&self.bytes[..n]);
        self.bytes = &self.bytes[n..];
        Ok(n)
    }
}

#[test]
fn reads_pieces_to_the_end_or_until_full(rt: HostRuntime) {
    let mut input = Pieces {
        bytes: b"abcdefghijk",
        before: None,
    };
    let mut buffer = [0u8; 7];
    assert!(rt; matches!(read_full(&mut input, &mut buffer), Ok(7)));
    assert_eq!(rt; &buffer[..], &b"abcdefg"[..]);
    assert!(rt; matches!(read_full(&mut input, &mut buffer), Ok(4)));
    assert_eq!(rt; &buffer[..4], &b"hijk"[..]);
    assert!(rt; matches!(read_full(&mut input, &mut buffer), Ok(0)));
}

#[test]
fn a_read_that_fails_is_an_error(rt: HostRuntime) {
    let mut input = Pieces {
        bytes: b"abcdefghijk",
        before: Some(2),
    };
    let mut buffer = [0u8; 16];
    assert!(rt; read_full(&mut input, &mut buffer).is_err());
    assert_eq!(rt; &buffer[..6], &b"abcdef"[..]);
    assert!(rt; matches!(read_full(&mut input, &mut buffer), Ok(5)));
    assert_eq!(rt; &buffer[..5], &b"ghijk"[..]);
}
