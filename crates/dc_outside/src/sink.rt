ghost use Rattle.std.specs.Prelude.{◌≡◌, List, ℕ, Option};
ghost use Rattle.dc_outside.specs.Faults.{HasCause};
ghost use Rattle.dc_outside.specs.Octets.{Puts};

use crate::Failed;

/// Where octets go, one write after another.
pub trait Sink {
    /// The octets that were put out, where they are told.
    ghost put_out: { Self → Option (List ℕ) };

    /// How many writes failed, up to 2^64 - 1.
    ghost fault_count: { Self → ℕ };

    /// Adds all of the octets at the end of those put out, or fails and adds a front of them.
    fn write_all(&mut self, bytes: &[u8]) -> Result<(), Failed>
        ensures octets { Puts (put_out self.old) (put_out self.new) result bytes.now }
        ensures cause { HasCause (fault_count self.old) (fault_count self.new) result };

    /// How many writes failed, up to 2^64 - 1. A count that stands there counts as risen.
    fn faults(&self) -> u64
        ensures { result ≡ fault_count self.now };
}
