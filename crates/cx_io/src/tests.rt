ghost use Rattle.std.specs.Prelude.{◌≡◌, ℕ, ◌<◌, ◌≤◌, ◌++◌, [], true, false, List, Option, Some, Ok, Err, length, IfOk, OnErr, OnOk, vec_len};
ghost use Rattle.cx_io.specs.Count.{Rose};
ghost use Rattle.cx_io.specs.Source.{Consumes, IsAtEnd};
ghost use Rattle.cx_io.specs.Sink.{Appends, AppendsFront};

use super::*;
use std::alloc::{AllocError, Global};
use std::io;
use std::test::Fail;

/// Why reading into memory stops.
#[derive(Debug, Drop, PartialEq, Eq)]
enum Stopped {
    Failed,
    NoMemory,
}

impl From<Failed> for Stopped {
    ghost use Rattle.std.specs.Prelude.{◌≡◌};
    ghost use Rattle.cx_io.specs.declared.tests.Stopped.TheVariants as stopped;

    ghost from_gives = { λ _ e. e ≡ stopped.Failed };

    fn from(_e: Failed) -> Stopped {
        Stopped::Failed
    }
}

impl From<AllocError> for Stopped {
    ghost use Rattle.std.specs.Prelude.{◌≡◌};
    ghost use Rattle.cx_io.specs.declared.tests.Stopped.TheVariants.{NoMemory};

    ghost from_gives = { λ _ e. e ≡ NoMemory };

    fn from(_e: AllocError) -> Stopped {
        Stopped::NoMemory
    }
}

/// Reads one piece more behind the text, and tells whether there was one.
#[tactic(auto, using(crate::proofs::Pieces::consumes_then))]
fn read_more<S: Source>(source: &mut S, buf: &mut [u8], text: &mut Vec<u8>) -> Result<bool, Stopped>
    requires { 0 < length buf.old }
    ensures read { (whole : Option (List ℕ)) → Consumes whole (S.rest source.old) text.old.items → OnOk result (Consumes whole (S.rest source.new) text.new.items) }
    ensures end { result ≡ Ok false → IsAtEnd (S.rest source.new) }
    ensures more { result ≡ Ok true → vec_len text.old < vec_len text.new }
    ensures never_falls { S.faults source.old ≤ S.faults source.new }
    ensures cause { result ≡ Err Stopped.Failed → Rose (S.faults source.old) (S.faults source.new) }
{
    let count = source.read(buf)?;
    text.extend_from_slice(&buf[..count])?;
    Ok(count > 0)
}

/// Reads all that is left behind the text, if that is at most a thousand pieces, and tells whether it was.
#[tactic(auto, using(crate::proofs::Pieces::consumes_nothing))]
fn read_all<S: Source>(source: &mut S, buf: &mut [u8], text: &mut Vec<u8>) -> Result<bool, Stopped>
    requires buf { 0 < length buf.old }
    requires text { text.old.items ≡ [] }
    ensures read { OnOk result (Consumes (S.rest source.old) (S.rest source.new) text.new.items) }
    ensures end { result ≡ Ok true → IsAtEnd (S.rest source.new) }
    ensures cause { result ≡ Err Stopped.Failed → Rose (S.faults source.old) (S.faults source.new) }
{
    for _ in 0..1000u32 {
        if !read_more(source, buf, text)? {
            return Ok(true);
        }
    }
    Ok(false)
}

/// Two puts: what is written at a failure is a front of both.
#[tactic(auto, using(crate::proofs::Pieces::appends_then, crate::proofs::Pieces::appends_front_of, crate::proofs::Pieces::appends_then_front))]
fn put_both<O: Sink>(sink: &mut O, first: &[u8], second: &[u8]) -> Result<(), Failed>
    requires first { 0 < length first.now }
    requires second { 0 < length second.now }
    ensures ok { OnOk result (Appends (O.written sink.old) (O.written sink.new) (first.now ++ second.now)) }
    ensures err { OnErr result (AppendsFront (O.written sink.old) (O.written sink.new) (first.now ++ second.now)) }
    ensures cause { OnErr result (Rose (O.faults sink.old) (O.faults sink.new)) }
{
    sink.put(first)?;
    sink.put(second)?;
    Ok(())
}

/// A reader that gives its bytes one at a time, and fails at the listed calls.
#[derive(Drop)]
struct Shaky {
    left: u8,
    calls: u8,
    interrupted_at: u8,
    fails_at: u8,
}

impl Shaky {
    fn outcome(&mut self) -> io::Result<usize>
        ensures { IfOk result (λ n. n ≤ 1) }
    {
        self.calls = self.calls.saturating_add(1);
        if self.calls == self.interrupted_at {
            return Err(io::Error::from(io::ErrorKind::Interrupted));
        }
        if self.calls == self.fails_at {
            return Err(io::Error::from(io::ErrorKind::Other));
        }
        if self.left == 0 {
            return Ok(0);
        }
        self.left -= 1;
        Ok(1)
    }
}

impl io::Read for Shaky {
    fn read(&mut self, buf: &mut [u8]) -> io::Result<usize> {
        if buf.is_empty() {
            return Ok(0);
        }
        buf[0] = b'x';
        self.outcome()
    }
}

impl io::Write for Shaky {
    fn write(&mut self, buf: &[u8]) -> io::Result<usize> {
        if buf.is_empty() {
            return Ok(0);
        }
        self.outcome()
    }

    fn flush(&mut self) -> io::Result<()> {
        Ok(())
    }
}

/// A writer that keeps what it takes, three bytes at a time, is interrupted at one call and fails at another.
#[derive(Drop)]
struct Slow {
    kept: Vec<u8>,
    calls: u8,
    interrupted_at: u8,
    fails_at: u8,
}

impl io::Write for Slow {
    ghost contents = { λ w. Some w.kept.items };

    fn write(&mut self, buf: &[u8]) -> io::Result<usize> {
        self.calls = self.calls.saturating_add(1);
        if self.calls == self.interrupted_at {
            return Err(io::Error::from(io::ErrorKind::Interrupted));
        }
        if self.calls == self.fails_at {
            return Err(io::Error::from(io::ErrorKind::Other));
        }
        let count = buf.len().min(3);
        self.kept.extend_from_slice(&buf[..count])?;
        Ok(count)
    }

    fn flush(&mut self) -> io::Result<()> {
        Ok(())
    }
}

fn make_slow(alloc: Global, interrupted_at: u8, fails_at: u8) -> Slow {
    Slow {
        kept: Vec::new(alloc),
        calls: 0,
        interrupted_at,
        fails_at,
    }
}

fn make_shaky(left: u8, interrupted_at: u8, fails_at: u8) -> Shaky {
    Shaky {
        left,
        calls: 0,
        interrupted_at,
        fails_at,
    }
}

#[test]
fn a_source_goes_on_behind_a_failure(rt: HostRuntime) -> Result<(), Fail> {
    let bytes = b"abcde".to_vec(rt.alloc())?;
    let fails = [2].to_vec(rt.alloc())?;
    let mut source = MemSource::new(bytes, 2, fails);
    let mut buf = [0u8; 3];
    assert_eq!(rt; source.read(&mut buf), Ok(2));
    assert_eq!(rt; buf, *b"ab\0");
    assert_eq!(rt; source.read(&mut buf), Err(Failed));
    assert_eq!(rt; source.read(&mut buf), Ok(2));
    assert_eq!(rt; buf, *b"cd\0");
    assert_eq!(rt; source.read(&mut buf), Ok(1));
    assert_eq!(rt; buf, *b"ed\0");
    assert_eq!(rt; source.read(&mut buf), Ok(0));
    Ok(())
}

#[test]
fn a_source_is_read_whole_by_any_step(rt: HostRuntime) -> Result<(), Fail> {
    for step in 1..7usize {
        let bytes = b"abcde".to_vec(rt.alloc())?;
        let mut source = MemSource::new(bytes, step, Vec::new(rt.alloc()));
        let mut text = Vec::new(rt.alloc());
        assert_eq!(rt; read_all(&mut source, &mut [0u8; 4], &mut text), Ok(true));
        assert_eq!(rt; text.as_slice(), b"abcde".as_slice(), "by {step}");
    }
    Ok(())
}

#[test]
fn a_sink_keeps_what_a_failed_put_still_takes(rt: HostRuntime) -> Result<(), Fail> {
    let fails = [(1, 0), (2, 3), (2, 1)].to_vec(rt.alloc())?;
    let mut sink = MemSink::new(rt.alloc(), 10, fails)?;
    assert_eq!(rt; sink.put(b"abcd"), Err(Failed));
    assert_eq!(rt; sink.bytes(), b"".as_slice());
    assert_eq!(rt; sink.put(b"efgh"), Err(Failed));
    assert_eq!(rt; sink.bytes(), b"efg".as_slice());
    assert_eq!(rt; sink.put(b"ijkl"), Ok(()));
    assert_eq!(rt; sink.put(b"mnop"), Err(Failed));
    assert_eq!(rt; sink.bytes(), b"efgijklmno".as_slice());
    Ok(())
}

#[test]
fn two_puts_are_written_in_turn(rt: HostRuntime) -> Result<(), Fail> {
    let mut sink = MemSink::new(rt.alloc(), 5, Vec::new(rt.alloc()))?;
    assert_eq!(rt; put_both(&mut sink, b"abc", b"de"), Ok(()));
    assert_eq!(rt; sink.bytes(), b"abcde".as_slice());
    Ok(())
}

#[test]
fn a_reader_of_std_is_read_whole(rt: HostRuntime) -> Result<(), Fail> {
    let mut source = StdSource::new(b"abcde".as_slice());
    let mut text = Vec::new(rt.alloc());
    assert_eq!(rt; read_all(&mut source, &mut [0u8; 2], &mut text), Ok(true));
    assert_eq!(rt; text.as_slice(), b"abcde".as_slice());
    Ok(())
}

#[test]
fn a_writer_of_std_takes_each_piece(rt: HostRuntime) -> Result<(), Fail> {
    let mut written = Vec::new(rt.alloc());
    let mut sink = StdSink::new(&mut written);
    assert_eq!(rt; put_both(&mut sink, b"abc", b"de"), Ok(()));
    drop(sink);
    assert_eq!(rt; written.as_slice(), b"abcde".as_slice());
    Ok(())
}

#[test]
fn a_writer_that_takes_three_bytes_has_each_byte_once(rt: HostRuntime) -> Result<(), Fail> {
    let mut slow = make_slow(rt.alloc(), 2, 0);
    let mut sink = StdSink::new(&mut slow);
    assert_eq!(rt; put_both(&mut sink, b"abcdefgh", b"ijk"), Ok(()));
    assert_eq!(rt; sink.faults(), 1);
    drop(sink);
    assert_eq!(rt; slow.kept.as_slice(), b"abcdefghijk".as_slice());
    Ok(())
}

#[test]
fn a_put_that_fails_leaves_a_front(rt: HostRuntime) -> Result<(), Fail> {
    let mut slow = make_slow(rt.alloc(), 0, 3);
    let mut sink = StdSink::new(&mut slow);
    assert_eq!(rt; sink.put(b"abcdefgh"), Err(Failed));
    assert_eq!(rt; sink.faults(), 1);
    drop(sink);
    assert_eq!(rt; slow.kept.as_slice(), b"abcdef".as_slice());
    Ok(())
}

#[test]
fn an_error_of_a_reader_is_a_failure(rt: HostRuntime) -> Result<(), Fail> {
    let mut source = StdSource::new(make_shaky(3, 2, 4));
    let mut buf = [0u8; 4];
    assert_eq!(rt; (source.read(&mut buf), source.faults()), (Ok(1), 0));
    assert_eq!(rt; (source.read(&mut buf), source.faults()), (Ok(1), 1));
    assert_eq!(rt; (source.read(&mut buf), source.faults()), (Err(Failed), 2));
    assert_eq!(rt; (source.read(&mut buf), source.faults()), (Ok(1), 2));
    assert_eq!(rt; (source.read(&mut buf), source.faults()), (Ok(0), 2));
    Ok(())
}

#[test]
fn an_error_of_a_writer_is_a_failure(rt: HostRuntime) -> Result<(), Fail> {
    let mut sink = StdSink::new(make_shaky(5, 2, 4));
    assert_eq!(rt; (sink.put(b"ab"), sink.faults()), (Ok(()), 1));
    assert_eq!(rt; (sink.put(b"cd"), sink.faults()), (Err(Failed), 2));
    assert_eq!(rt; (sink.put(b"efg"), sink.faults()), (Ok(()), 2));
    assert_eq!(rt; (sink.put(b"h"), sink.faults()), (Err(Failed), 3));
    Ok(())
}
