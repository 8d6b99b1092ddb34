ghost use Rattle.std.specs.Prelude.{◌≡◌, ℕ, ◌<◌, ◌≤◌, List, Option, length};
ghost use Rattle.cx_io.specs.Sink.{PutAppends};
ghost use Rattle.cx_io.specs.Source.{HasCause};

use crate::failed::Failed;

/// Takes bytes one piece after another.
pub trait Sink {
    // the bytes that were taken, where the sink tells them
    ghost written: { Self → Option (List ℕ) };

    // how many faults there were; at 2^64 - 1 the count stands still
    ghost faults: { Self → ℕ };

    /// Takes the piece. It fails only where it counts a fault, and may then have taken a front of the piece.
    fn put(&mut self, piece: &[u8]) -> Result<(), Failed>
        requires { 0 < length piece.now }
        ensures bytes { PutAppends (written self.old) (written self.new) result piece.now }
        ensures never_falls { faults self.old ≤ faults self.new }
        ensures cause { HasCause (faults self.old) (faults self.new) result };
}
