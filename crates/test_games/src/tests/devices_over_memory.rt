//! Whole reads and writes over memory, and over devices that fail or are interrupted.
ghost use Rattle.std.specs.Prelude.{◌≡◌, ◌++◌, ◌+◌, take, IfOk};

use io_devices::{
    DeviceFailed, FromRead, FromWrite, Input, Output, ReadGaveUp, WriteGaveUp, read_within,
    write_whole,
};
use std::alloc::Global;
use std::io::{self, ErrorKind, Read, Write};
use test_calls::{Feed, Mishap, Sheet};

/// A reader and writer of std that is interrupted a few times before each call succeeds, and then fails if it is to.
#[derive(Drop)]
struct Interrupted {
    times: u8,
    fails: bool,
}

impl Interrupted {
    fn call(&mut self) -> io::Result<usize>
        ensures { IfOk result (λ n. n ≡ 0) }
    {
        if self.times > 0 {
            self.times -= 1;
            return Err(ErrorKind::Interrupted.into());
        }
        if self.fails {
            return Err(ErrorKind::BrokenPipe.into());
        }
        Ok(0)
    }
}

impl Read for Interrupted {
    fn read(&mut self, _buf: &mut [u8]) -> io::Result<usize> {
        self.call()
    }
}

impl Write for Interrupted {
    fn write(&mut self, _buf: &[u8]) -> io::Result<usize> {
        self.call()
    }

    fn flush(&mut self) -> io::Result<()> {
        Ok(())
    }
}

/// Over a slice the bytes that an input gives are known.
fn front_of(alloc: Global, bytes: &[u8], limit: usize) -> Result<Vec<u8>, ReadGaveUp>
    ensures { IfOk result (λ front. front.items ≡ take (limit + 1) bytes.now) }
{
    read_within(alloc, &mut FromRead::new(bytes), limit)
}

/// Over a vector the bytes that an output took are known.
fn appended(to: Vec<u8>, bytes: &[u8]) -> Result<Vec<u8>, WriteGaveUp>
    ensures { IfOk result (λ all. all.items ≡ to.items ++ bytes.now) }
{
    let mut output = FromWrite::new(to);
    write_whole(&mut output, bytes)?;
    Ok(output.into_inner())
}

#[test]
fn an_input_is_read_to_its_end_or_past_its_limit(rt: HostRuntime) {
    let text = b"eighteen bytes, so";
    for piece in [1, 7, 100] {
        for (limit, want) in [
            (0, 1),
            (3, 4),
            (16, 17),
            (17, 18),
            (18, 18),
            (usize::MAX, 18),
        ] {
            let mut input = Feed::new(text, piece, 100);
            let bytes = read_within(rt.alloc(), &mut input, limit).expect(&rt, "bytes");
            assert_eq!(rt; bytes.as_slice(), &text[..want], "{limit} by {piece}");
            assert_eq!(rt; input.rest, &text[want..], "{limit} by {piece}");
        }
    }
}

#[test]
fn a_read_that_fails_is_no_end_of_input(rt: HostRuntime) {
    let mut input = Feed::new(b"some bytes", 1, 4);
    let outcome = read_within(rt.alloc(), &mut input, 100).map(|bytes| bytes.len());
    assert_eq!(rt; outcome, Err(ReadGaveUp::Failed));
    assert_eq!(rt; input.failures(), 1);
    assert_eq!(rt; input.rest.len(), 6);
}

#[test]
fn bytes_are_written_in_order(rt: HostRuntime) {
    for piece in [1, 3, 8] {
        let mut output = Sheet::<8>::new(piece, 100, Mishap::Fails);
        let outcome = write_whole(&mut output, b"12345678");
        assert_eq!(rt; outcome, Ok(()));
        assert_eq!(rt; output.as_slice(), b"12345678".as_slice());
    }
}

#[test]
fn a_write_that_fails_or_takes_none_is_reported(rt: HostRuntime) {
    let rows: [(usize, usize, &[u8], WriteGaveUp, (u64, u64, usize)); 2] = [
        (1, 3, b"12345", WriteGaveUp::Failed, (1, 0, 3)),
        (5, 100, b"123456789", WriteGaveUp::TookNone, (0, 1, 8)),
    ];
    for (piece, writes, bytes, want, remaining) in rows {
        let mut output = Sheet::<8>::new(piece, writes, Mishap::Fails);
        assert_eq!(rt; write_whole(&mut output, bytes), Err(want));
        let len = output.as_slice().len();
        assert_eq!(rt; (output.failures, output.stalls, len), remaining);
    }
}

#[test]
fn an_interruption_is_no_failure(rt: HostRuntime) {
    let mut input = FromRead::new(Interrupted {
        times: 3,
        fails: false,
    });
    assert_eq!(rt; input.read(&mut [0; 4]), Ok(0));
    assert_eq!(rt; input.failures(), 0);

    let mut input = FromRead::new(Interrupted {
        times: 3,
        fails: true,
    });
    assert_eq!(rt; input.read(&mut [0; 4]), Err(DeviceFailed));
    assert_eq!(rt; input.failures(), 1);

    let mut output = FromWrite::new(Interrupted {
        times: 3,
        fails: false,
    });
    assert_eq!(rt; output.write(b"1"), Ok(0));
    assert_eq!(rt; output.failures(), 0);

    let mut output = FromWrite::new(Interrupted {
        times: 3,
        fails: true,
    });
    assert_eq!(rt; output.write(b"1"), Err(DeviceFailed));
    assert_eq!(rt; output.failures(), 1);
}

#[test]
fn memory_is_an_input_and_an_output(rt: HostRuntime) {
    let front = front_of(rt.alloc(), b"word", 2).expect(&rt, "bytes");
    assert_eq!(rt; front.as_slice(), b"wor".as_slice());
    let start = b"a ".to_vec(rt.alloc()).expect(&rt, "memory");
    let all = appended(start, b"word").expect(&rt, "written");
    assert_eq!(rt; all.as_slice(), b"a word".as_slice());
    let mut input = FromRead::new(b"word".as_slice());
    assert_eq!(rt; input.read(&mut [0; 3]), Ok(3));
    assert_eq!(rt; input.into_inner(), b"d".as_slice());
}
