// A reader that gives its bytes piece by piece, and one that fails in mid-stream.
use super::{Filled, read_first, read_full};
use std::io;
use std::io::{ErrorKind, Read};

// Gives two bytes a read, so many times, and then fails.
#[derive(Drop)]
struct Failing {
    reads: u8,
}

impl Read for Failing {
    fn read(&mut self, buf: &mut [u8]) -> io::Result<usize> {
        if self.reads == 0 {
            return Err(io::Error::from(ErrorKind::BrokenPipe));
        }
        self.reads -= 1;
        if buf.len() < 2 {
            return Ok(0);
        }
        buf[0] = 7;
        buf[1] = 8;
        Ok(2)
    }
}

#[test]
fn a_failed_read_is_told_beside_what_came_before_it(rt: HostRuntime) {
    let mut input = Failing { reads: 2 };
    let mut table = [0u8; 6];
    let Filled { count, failure } = read_full(&mut input, &mut table);
    assert!(rt; count == 4, "two reads");
    assert!(rt; table == [7, 8, 7, 8, 0, 0], "and no byte more");
    assert!(rt; failure.is_some(), "the third read failed");
}

#[test]
fn a_failed_read_is_an_error(rt: HostRuntime) {
    let mut input = Failing { reads: 2 };
    let mut table = [0u8; 6];
    assert!(rt;
        read_first(&mut input, &mut table).is_err(),
        "the third read fails"
    );
}

#[test]
fn no_byte_is_taken_that_is_not_asked_for(rt: HostRuntime) {
    let mut input: &[u8] = b"abcdefg";
    let mut table = [0u8; 4];
    assert!(rt;
        read_full(&mut input, &mut table).count == 4,
        "the table is full"
    );
    assert!(rt; table == *b"abcd", "in order");
    assert!(rt; input.len() == 3, "the rest is there");
    let mut more = [0u8; 4];
    assert!(rt;
        read_full(&mut input, &mut more).count == 3,
        "the input ends"
    );
}
