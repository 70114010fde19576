use thiserror::Error;

/// A read or a write failed. The count of faults of its source or sink rose.
#[derive(Clone, Copy, Debug, PartialEq, Eq, Error)]
#[error("the source or the sink failed")]
pub struct Failed;
