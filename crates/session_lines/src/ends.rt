/// How a session ended.
#[derive(Clone, Copy, Debug, PartialEq, Eq)]
pub enum SessionEnd {
    /// At `stop`, or else at `quit` or the end of the input.
    Ended { stop: bool },
    /// A line, counted from 1, has more than 4,096 bytes without its line feed.
    LongLine { line: u64 },
    /// A read failed.
    ReadFault,
    /// A write failed after the first so many bytes of all replies, or at least so many where this is the last number.
    WriteFault { written: u64 },
    /// The session took 1,099,511,627,776 bytes, and no line of these ended it.
    Spent,
    NoMemory,
}
