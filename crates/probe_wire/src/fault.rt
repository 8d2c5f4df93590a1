/// Why bytes are no packet. The faults are looked for in this order.
#[derive(Clone, Copy, Debug, PartialEq, Eq)]
pub enum WireFault {
    /// Fewer than 33 bytes, but so many.
    Short { len: usize },
    /// More than 33 bytes, so many.
    Long { len: usize },
    /// The first four bytes are not the mark.
    BadMark,
    /// The width is not 1 to 128, or a bit past the width is 1.
    BadWidth,
}
