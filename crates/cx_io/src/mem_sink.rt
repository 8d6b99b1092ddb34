ghost use Rattle.std.specs.Prelude.{◌≡◌, ◌<◌, ◌≤◌, ◌↔◌, ◌++◌, [], Some, length, take, IsErr, IfOk, is_ok, if◌then◌else◌};
ghost use Rattle.cx_io.specs.Count.{one_more};
ghost use Rattle.cx_io.specs.MemSink.{listed, MustFail, taken};
ghost use Rattle.cx_io.specs.Sink.{PutAppends};
ghost use Rattle.cx_io.specs.Source.{HasCause};

use crate::failed::Failed;
use crate::sink::Sink;
use std::alloc::{AllocError, Global};
use std::marker::Model;

/// A sink into memory, which has room for so many bytes and fails where it is told to.
#[derive(Debug, Drop)]
pub struct MemSink {
    bytes: Vec<u8>,
    room: usize,
    calls: u64,
    faults: u64,
    fails: Vec<(u64, usize)>,
}

impl Model for MemSink {
    ghost use Rattle.std.specs.Prelude.{◌≤◌, length, vec_capacity};
    ghost use Rattle.cx_io.specs.MemSink.{SinkState};

    ghost Value = { SinkState };

    ghost view = { λ s. record { bytes = s.bytes.items; room = s.room; calls = s.calls; faults = s.faults; fails = s.fails.items } };

    ghost invariant = { λ s. (length s.bytes.items ≤ s.room) × (s.room ≤ vec_capacity s.bytes) };
}

impl MemSink {
    /// An empty sink with room for so many bytes. The puts that are listed, counted from 1, fail, and each
    /// still takes the number of bytes that stands beside it.
    pub fn new(alloc: Global, room: usize, fails: Vec<(u64, usize)>) -> Result<MemSink, AllocError>
        ensures bytes { IfOk result (λ s. s.bytes ≡ []) }
        ensures room { IfOk result (λ s. s.room ≡ room) }
        ensures fails { IfOk result (λ s. s.fails ≡ fails.items) }
        ensures calls { IfOk result (λ s. s.calls ≡ 0) }
        ensures faults { IfOk result (λ s. s.faults ≡ 0) }
    {
        Ok(MemSink {
            bytes: Vec::with_capacity(alloc, room)?,
            room,
            calls: 0,
            faults: 0,
            fails,
        })
    }

    /// What was written. Takes no memory.
    pub fn bytes(&self) -> &[u8]
        ensures { result.now ≡ self.now.bytes }
    {
        &self.bytes
    }
}

/// How many bytes the put with this number still takes, where it is listed.
fn still_takes(fails: &[(u64, usize)], number: u64) -> Option<usize>
    ensures { result ≡ listed fails.now number }
{
    fails
        .iter()
        .find(|entry| entry.0 == number)
        .map(|entry| entry.1)
}

impl Sink for MemSink {
    ghost written = { λ s. Some s.bytes };

    ghost faults = { λ s. s.faults };

    /// Takes no memory. A piece that passes the room is a failure, and what fits of it is taken.
    fn put(&mut self, piece: &[u8]) -> Result<(), Failed>
        requires { 0 < length piece.now }
        ensures bytes { PutAppends (Some self.old.bytes) (Some self.new.bytes) result piece.now }
        ensures never_falls { self.old.faults ≤ self.new.faults }
        ensures cause { HasCause self.old.faults self.new.faults result }

        // Which calls fail, and what is counted.
        ensures calls { self.new.calls ≡ one_more self.old.calls }
        ensures fails { IsErr result ↔ MustFail self.old piece.now }
        ensures faults { self.new.faults ≡ (if is_ok result then self.old.faults else one_more self.old.faults) }

        // How much is taken, and what is kept.
        ensures taken { self.new.bytes ≡ self.old.bytes ++ take (taken self.old piece.now) piece.now }
        ensures room { self.new.room ≡ self.old.room }
        ensures list { self.new.fails ≡ self.old.fails }
    {
        self.calls = self.calls.saturating_add(1);
        let listed = still_takes(&self.fails, self.calls);
        let free = self.room - self.bytes.len();
        let taken = listed.unwrap_or(piece.len()).min(free).min(piece.len());
        match self.bytes.extend_from_slice(&piece[..taken]) {
            Ok(()) => {}
            Err(_) => unreachable!(),
        }
        if listed.is_some() || free < piece.len() {
            self.faults = self.faults.saturating_add(1);
            return Err(Failed);
        }
        Ok(())
    }
}
