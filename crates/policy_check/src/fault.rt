/// Why a line is no policy of a network.
#[derive(Clone, Copy, Debug, PartialEq, Eq)]
pub enum PolicyFault {
    /// The first word is no demand, or there are not as many words as it wants.
    Words,
    /// A word is no number where one must stand.
    Number,
    /// The last word is no pattern.
    Letters,
    /// A terminal or the box is not in the network.
    Unknown,
    /// The pattern has not as many bits as the network's headers.
    Width,
}
