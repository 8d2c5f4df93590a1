/// How far a session has come.
#[derive(Clone, Copy)]
pub(crate) struct Place {
    /// How many lines were read.
    pub(crate) lines: u64,
    /// How many bytes of replies were written. The count stands still at its type's end.
    pub(crate) written: u64,
}
