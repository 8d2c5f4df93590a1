/// What a place of a rewritten header gets.
#[derive(Clone, Copy, Debug, PartialEq, Eq)]
pub enum Item {
    Zero,
    One,
    /// The old bit at a place, counted from 1 from the left.
    Old(u32),
}
