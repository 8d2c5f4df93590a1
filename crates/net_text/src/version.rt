/// The version of a network text, which its head names. Version 2 has the lines of version 1, forbidden patterns, and
/// rewrites that move bits.
#[derive(Clone, Copy, Debug, PartialEq, Eq)]
pub(crate) enum Version {
    One,
    Two,
}
