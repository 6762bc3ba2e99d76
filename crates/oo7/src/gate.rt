//! What a caller lets workers wait at.

/// Is told of each job that a worker is about to begin.
pub trait Gate: Sync {
    /// Worker `worker` is about to begin job `job`.
    fn pass(&self, worker: u32, job: u32);
}

/// A gate that lets every worker pass at once.
#[derive(Clone, Copy, Debug, Drop)]
pub struct OpenGate;

impl Gate for OpenGate {
    fn pass(&self, _worker: u32, _job: u32) {}
}
