ghost use Rattle.std.specs.Prelude.{◌≡◌, ℕ, ◌<◌, ◌≤◌, List, [], Option, Some, IfOk, length};
ghost use Rattle.cx_io.specs.Source.{ReadsAtMost, ReadConsumes, IsZeroAtEnd, IsZeroThereOnly, HasCause};

use crate::failed::Failed;

/// Gives bytes one piece after another.
pub trait Source {
    // the bytes that are left, where the source tells them
    ghost rest: { Self → Option (List ℕ) };

    // how many faults there were; at 2^64 - 1 the count stands still
    ghost faults: { Self → ℕ };

    /// Moves the next bytes to the front of the buffer and gives how many they are: 0 at the end alone. It
    /// fails only where it counts a fault, and then moves nothing.
    fn read(&mut self, buf: &mut [u8]) -> Result<usize, Failed>
        requires { 0 < length buf.old }
        ensures bound { ReadsAtMost result buf.new }
        ensures bytes { ReadConsumes (rest self.old) (rest self.new) result buf.new }
        ensures zero_at_end { IsZeroAtEnd (rest self.old) result }
        ensures zero_there_only { IsZeroThereOnly (rest self.old) result }
        ensures never_falls { faults self.old ≤ faults self.new }
        ensures cause { HasCause (faults self.old) (faults self.new) result };
}
