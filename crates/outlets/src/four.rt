//! One value for each node.

/// One for the terminal, one for the master, and one for each secondary node.
#[derive(Drop)]
pub struct Four<X> {
    pub t: X,
    pub m: X,
    pub a: X,
    pub b: X,
}
