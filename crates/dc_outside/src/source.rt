ghost use Rattle.std.specs.Prelude.{◌≡◌, List, ℕ, Option};
ghost use Rattle.std.specs.Io.{ReadsAtMost};
ghost use Rattle.dc_outside.specs.Faults.{HasCause};
ghost use Rattle.dc_outside.specs.Octets.{Reads};

use crate::Failed;

/// Where octets come from, one read after another.
pub trait Source {
    /// The octets left, where they are told.
    ghost left: { Self → Option (List ℕ) };

    /// How many reads failed, up to 2^64 - 1.
    ghost fault_count: { Self → ℕ };

    /// Gives some of the octets left, and answers how many: at most the buffer's length, and 0 only at their end or for
    /// an empty buffer. They stand at the buffer's front; the rest of the buffer may hold anything. A read that fails
    /// takes nothing.
    fn read(&mut self, buf: &mut [u8]) -> Result<usize, Failed>
        ensures bound { ReadsAtMost result buf.new }
        ensures octets { Reads (left self.old) (left self.new) result buf.new }
        ensures cause { HasCause (fault_count self.old) (fault_count self.new) result };

    /// How many reads failed, up to 2^64 - 1. A count that stands there counts as risen.
    fn faults(&self) -> u64
        ensures { result ≡ fault_count self.now };
}
