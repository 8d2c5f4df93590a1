/// What the packet of an entry came to.
#[derive(Clone, Copy, Debug, PartialEq, Eq)]
pub enum Verdict {
    /// It was delivered as the entry says.
    Pass,
    Fail,
}

/// The entry has this verdict already, which stays.
#[derive(Clone, Copy, Debug, PartialEq, Eq)]
pub struct Counted {
    pub verdict: Verdict,
}
