/// Why a word is no header, pattern or rewrite.
#[derive(Clone, Copy, Debug, PartialEq, Eq)]
pub enum LetterFault {
    /// The word hasn't 1 to 128 letters, but so many.
    BadLength { got: usize },
    /// The first wrong letter, counted from 0.
    BadLetter { at: usize },
}
