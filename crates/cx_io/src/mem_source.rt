ghost use Rattle.std.specs.Prelude.{◌≡◌, ◌<◌, ◌≤◌, ◌↔◌, ◌++◌, [], Some, length, min, take, drop, Contains, IsErr, IfOk, OnErr, is_ok, if◌then◌else◌};
ghost use Rattle.cx_io.specs.Count.{one_more};
ghost use Rattle.cx_io.specs.Source.{ReadsAtMost, ReadConsumes, IsZeroAtEnd, IsZeroThereOnly, HasCause};

use crate::failed::Failed;
use crate::source::Source;
use std::marker::Model;

/// A source over bytes in memory, which gives them in small pieces and fails where it is told to.
#[derive(Debug, Drop)]
pub struct MemSource {
    bytes: Vec<u8>,
    /// How many of the bytes were read.
    at: usize,
    step: usize,
    calls: u64,
    faults: u64,
    fails: Vec<u64>,
}

impl Model for MemSource {
    ghost use Rattle.std.specs.Prelude.{◌≤◌, length, drop};
    ghost use Rattle.cx_io.specs.MemSource.{SourceState};

    ghost Value = { SourceState };

    ghost view = { λ s. record { rest = drop s.at s.bytes.items; step = s.step; calls = s.calls; faults = s.faults; fails = s.fails.items } };

    ghost invariant = { λ s. (s.at ≤ length s.bytes.items) × (1 ≤ s.step) };
}

impl MemSource {
    /// A source of these bytes. Each read gives at most `step` of them, and those whose numbers are listed,
    /// counted from 1, fail. Takes no memory.
    pub fn new(bytes: Vec<u8>, step: usize, fails: Vec<u64>) -> MemSource
        requires { 1 ≤ step }
        ensures bytes { result.rest ≡ bytes.items }
        ensures step { result.step ≡ step }
        ensures fails { result.fails ≡ fails.items }
        ensures calls { result.calls ≡ 0 }
        ensures faults { result.faults ≡ 0 }
    {
        MemSource {
            bytes,
            at: 0,
            step,
            calls: 0,
            faults: 0,
            fails,
        }
    }
}

/// Copies at most so many bytes, as many as both have, and gives how many they are.
#[tactic(auto, using(crate::proofs::Moves::moved))]
fn copy_front(from: &[u8], to: &mut [u8], most: usize) -> usize
    ensures count { result ≡ min (min most (length to.old)) (length from.now) }
    ensures copied { to.new ≡ take result from.now ++ drop result to.old }
    ensures front { from.now ≡ take result to.new ++ drop result from.now }
{
    let count = most.min(to.len()).min(from.len());
    to[..count].copy_from_slice(&from[..count]);
    count
}

impl Source for MemSource {
    ghost rest = { λ s. Some s.rest };

    ghost faults = { λ s. s.faults };

    /// Takes no memory.
    fn read(&mut self, buf: &mut [u8]) -> Result<usize, Failed>
        requires { 0 < length buf.old }
        ensures bound { ReadsAtMost result buf.new }
        ensures bytes { ReadConsumes (Some self.old.rest) (Some self.new.rest) result buf.new }
        ensures zero_at_end { IsZeroAtEnd (Some self.old.rest) result }
        ensures zero_there_only { IsZeroThereOnly (Some self.old.rest) result }
        ensures never_falls { self.old.faults ≤ self.new.faults }
        ensures cause { HasCause self.old.faults self.new.faults result }

        // Which calls fail, and what is counted.
        ensures calls { self.new.calls ≡ one_more self.old.calls }
        ensures fails { IsErr result ↔ Contains self.old.fails (one_more self.old.calls) }
        ensures faults { self.new.faults ≡ (if is_ok result then self.old.faults else one_more self.old.faults) }

        // How much is moved, and what is kept.
        ensures count { IfOk result (λ n. n ≡ min (min self.old.step (length buf.old)) (length self.old.rest)) }
        ensures rest { IfOk result (λ n. self.new.rest ≡ drop n self.old.rest) }
        ensures moved { IfOk result (λ n. buf.new ≡ take n self.old.rest ++ drop n buf.old) }
        ensures buffer { OnErr result (buf.new ≡ buf.old) }
        ensures step { self.new.step ≡ self.old.step }
        ensures list { self.new.fails ≡ self.old.fails }
    {
        self.calls = self.calls.saturating_add(1);
        if self.fails.contains(&self.calls) {
            self.faults = self.faults.saturating_add(1);
            return Err(Failed);
        }
        let count = copy_front(&self.bytes[self.at..], buf, self.step);
        self.at += count;
        Ok(count)
    }
}
