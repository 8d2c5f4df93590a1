use suspect_book::Verdict;

/// What a probe that was sent came to.
#[derive(Clone, Copy, Debug, PartialEq, Eq)]
pub enum Shot {
    /// It arrived as its entry says, or it did not arrive.
    Sure(Verdict),
    /// The link failed.
    Faulted,
    /// 64 other packets were taken where it was awaited.
    Strays,
}
