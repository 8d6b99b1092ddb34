ghost use Rattle.std.specs.Prelude.{◌≡◌, ◌<◌, ◌≤◌, None, IfOk, is_ok, if◌then◌else◌, length};
ghost use Rattle.std.specs.Io.{WritesAtMost};
ghost use Rattle.std.specs.Io.KnownBytes.{WriteAppends};
ghost use Rattle.cx_io.specs.Count.{one_more};
ghost use Rattle.cx_io.specs.Sink.{PutAppends};
ghost use Rattle.cx_io.specs.Source.{HasCause};
ghost use Rattle.cx_io.specs.Std.{PutGrows};

use crate::failed::Failed;
use crate::sink::Sink;
use std::io::{self, ErrorKind, Write};
use std::marker::Model;

/// A sink over a writer of std, which does not flush. As a sink it tells no content; what its puts do to that of
/// the writer they say themselves.
#[derive(Drop)]
pub struct StdSink<W: Write + Drop> {
    writer: W,
    faults: u64,
}

impl<W: Write + Drop> Model for StdSink<W> {
    ghost use Rattle.cx_io.specs.Std.{Counted};

    ghost Value = { Counted W };

    ghost view = { λ s. record { stream = s.writer; faults = s.faults } };
}

impl<W: Write + Drop> StdSink<W> {
    /// A sink over the writer that has counted no fault. Takes no memory.
    pub fn new(writer: W) -> StdSink<W>
        ensures writer { result.stream ≡ writer }
        ensures faults { result.faults ≡ 0 }
    {
        StdSink { writer, faults: 0 }
    }

    /// How many faults were counted; at the last value of the count it stands still.
    pub fn faults(&self) -> u64
        ensures { result ≡ self.now.faults }
    {
        self.faults
    }

    /// One write, which counts a fault where the writer gives an error or takes nothing.
    fn write_once(&mut self, piece: &[u8]) -> io::Result<usize>
        requires { 0 < length piece.now }
        ensures some { IfOk result (λ n. 0 < n) }
        ensures bound { WritesAtMost result piece.now }
        ensures bytes { WriteAppends (W.contents self.old.stream) (W.contents self.new.stream) result piece.now }
        ensures faults { self.new.faults ≡ (if is_ok result then self.old.faults else one_more self.old.faults) }
        ensures never_falls { self.old.faults ≤ self.new.faults }
    {
        let outcome = self.writer.write(piece);
        if let Ok(1..) = outcome {
            return outcome;
        }
        self.faults = self.faults.saturating_add(1);
        match outcome {
            Ok(_) => Err(io::Error::from(ErrorKind::WriteZero)),
            error => error,
        }
    }

    /// One write, which is tried again where it is interrupted.
    fn write_some(&mut self, piece: &[u8]) -> Result<usize, Failed>
        requires { 0 < length piece.now }
        ensures some { IfOk result (λ n. 0 < n) }
        ensures bound { WritesAtMost result piece.now }
        ensures bytes { WriteAppends (W.contents self.old.stream) (W.contents self.new.stream) result piece.now }
        ensures never_falls { self.old.faults ≤ self.new.faults }
        ensures cause { HasCause self.old.faults self.new.faults result }
    {
        for _ in 0..u64::MAX {
            match self.write_once(piece) {
                Ok(count) => return Ok(count),
                Err(error) => {
                    if error.kind() != ErrorKind::Interrupted {
                        return Err(Failed);
                    }
                }
            }
        }
        Err(Failed)
    }
}

impl<W: Write + Drop> Sink for StdSink<W> {
    ghost written = { λ _. None };

    ghost faults = { λ s. s.faults };

    /// A write that takes a part is followed by one of what is left. An error of the writer is a fault, and
    /// so is a write that takes nothing.
    fn put(&mut self, piece: &[u8]) -> Result<(), Failed>
        requires { 0 < length piece.now }
        ensures bytes { PutAppends None None result piece.now }
        ensures never_falls { self.old.faults ≤ self.new.faults }
        ensures cause { HasCause self.old.faults self.new.faults result }

        // What the writer holds.
        ensures writer { PutGrows (W.contents self.old.stream) (W.contents self.new.stream) result piece.now }
    {
        let mut left = piece;
        while !left.is_empty() {
            let count = self.write_some(left)?;
            left = &left[count..];
        }
        Ok(())
    }
}
