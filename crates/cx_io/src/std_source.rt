ghost use Rattle.std.specs.Prelude.{◌≡◌, ℕ, ◌<◌, ◌≤◌, List, [], None, Some, IfOk, is_ok, if◌then◌else◌, length};
ghost use Rattle.std.specs.Io.KnownBytes.{ReadConsumes as TakesKnown};
ghost use Rattle.cx_io.specs.Count.{one_more};
ghost use Rattle.cx_io.specs.Source.{ReadsAtMost, ReadConsumes, IsZeroAtEnd, IsZeroThereOnly, HasCause};

use crate::failed::Failed;
use crate::source::Source;
use std::io::{self, ErrorKind, Read};
use std::marker::Model;

/// A source over a reader of std. As a source it tells no content; what its reads do to that of the reader they
/// say themselves.
#[derive(Drop)]
pub struct StdSource<R: Read + Drop> {
    reader: R,
    faults: u64,
}

impl<R: Read + Drop> Model for StdSource<R> {
    ghost use Rattle.cx_io.specs.Std.{Counted};

    ghost Value = { Counted R };

    ghost view = { λ s. record { stream = s.reader; faults = s.faults } };
}

impl<R: Read + Drop> StdSource<R> {
    /// A source over the reader that has counted no fault. Takes no memory.
    pub fn new(reader: R) -> StdSource<R>
        ensures reader { result.stream ≡ reader }
        ensures faults { result.faults ≡ 0 }
    {
        StdSource { reader, faults: 0 }
    }

    /// How many faults were counted; at the last value of the count it stands still.
    pub fn faults(&self) -> u64
        ensures { result ≡ self.now.faults }
    {
        self.faults
    }

    /// One read, which counts a fault where the reader gives an error.
    fn read_once(&mut self, buf: &mut [u8]) -> io::Result<usize>
        ensures bound { ReadsAtMost result buf.new }
        ensures bytes { TakesKnown (R.remaining self.old.stream) (R.remaining self.new.stream) result buf.new }
        ensures faults { self.new.faults ≡ (if is_ok result then self.old.faults else one_more self.old.faults) }
        ensures never_falls { self.old.faults ≤ self.new.faults }
    {
        let outcome = self.reader.read(buf);
        if outcome.is_err() {
            self.faults = self.faults.saturating_add(1);
        }
        outcome
    }
}

impl<R: Read + Drop> Source for StdSource<R> {
    ghost rest = { λ _. None };

    ghost faults = { λ s. s.faults };

    /// An error of the reader is a fault, but for `Interrupted`, at which it reads again.
    fn read(&mut self, buf: &mut [u8]) -> Result<usize, Failed>
        requires { 0 < length buf.old }
        ensures bound { ReadsAtMost result buf.new }
        ensures bytes { ReadConsumes None None result buf.new }
        ensures zero_at_end { IsZeroAtEnd None result }
        ensures zero_there_only { IsZeroThereOnly None result }
        ensures never_falls { self.old.faults ≤ self.new.faults }
        ensures cause { HasCause self.old.faults self.new.faults result }

        // What the reader has left.
        ensures reader { TakesKnown (R.remaining self.old.stream) (R.remaining self.new.stream) result buf.new }
    {
        for _ in 0..u64::MAX {
            match self.read_once(buf) {
                Ok(count) => return Ok(count),
                Err(error) => {
                    if error.kind() != ErrorKind::Interrupted {
                        return Err(Failed);
                    }
                }
            }
        }
        Err(Failed)
    }
}
