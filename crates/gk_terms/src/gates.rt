//! Who is told that a worker begins.

/// What is told of each worker of a trial as it begins its work, and of who holds a desk's lock. It
/// is called on the thread of that worker, so it may count workers, or hold one of them until
/// another has begun. This project's own.
pub trait Gate: Sync {
    /// The worker of this number begins: 1 for the first worker of a trial, 0 for who holds a lock.
    fn begin(&self, worker: u32);
}

/// A gate that holds nobody, and counts nobody.
#[derive(Clone, Copy, Debug, Drop)]
pub struct OpenGate;

impl Gate for OpenGate {
    fn begin(&self, _worker: u32) {}
}
