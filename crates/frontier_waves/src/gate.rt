/// What workers pass by before and after each class that they grow. By a gate a test sees that they work at one time.
pub trait Gate: Sync {
    /// A worker is about to grow the class of this number in its wave.
    fn enter(&self, job: u64);

    /// It has grown it, or found that it can't.
    fn leave(&self, job: u64);
}

/// Lets every worker pass.
#[derive(Clone, Copy, Debug)]
pub struct FreeGate;

impl Gate for FreeGate {
    fn enter(&self, _job: u64) {}

    fn leave(&self, _job: u64) {}
}
