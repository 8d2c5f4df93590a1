//! How a worker of the server ends.

/// How a worker ended.
#[derive(Clone, Copy, Debug, PartialEq, Eq)]
pub enum WorkEnd {
    /// A session read `stop`, and its `bye` was written.
    Stopped,
    /// Its door was shut.
    Shut,
    /// Its door failed.
    DoorFault,
    NoMemory,
}
