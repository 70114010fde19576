//! What a worker is given besides its core: when it may go on, and what becomes of messages in tunnels.

ghost use Rattle.std.specs.Prelude.{◌≡◌, ◌<◌, Bool, false, true};

use dc_base::Node;

/// What a worker passes at the start of each turn.
pub trait Gate: Drop {
    /// The node begins a turn. The turns are numbered from 0.
    fn pass(&mut self, node: Node, turn: u64);
}

/// What becomes of the messages that a node takes from tunnels.
pub trait Shaper: Drop {
    ghost is_lossless: { Self → Bool };

    /// Whether the message is lost: it is asked with how many messages of tunnels were taken before.
    fn loses(&self, number: u64) -> bool
        requires { number < 1000000 }
        ensures { result ≡ true → is_lossless self.now ≡ false };
}
