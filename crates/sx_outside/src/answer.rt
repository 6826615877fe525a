//! What the calls of the outside answer.

/// What a read of a name answers.
#[derive(Clone, Copy, PartialEq, Eq)]
pub enum ReadAnswer {
    /// The bytes under the name came.
    Found,
    /// Nothing is held under the name.
    Absent,
    /// More bytes than the limit are held under the name.
    TooLong,
    /// The read failed, and was counted as a fault.
    Failed,
    /// Memory was lacking.
    NoMemory,
}

/// What a write answers.
#[derive(Clone, Copy, PartialEq, Eq)]
pub enum WriteAnswer {
    /// The bytes were written whole.
    Done,
    /// The write failed, and was counted as a fault. A part of the bytes may have been written.
    Failed,
    /// Memory was lacking, and nothing was written.
    NoMemory,
}

/// What a take answers.
#[derive(Clone, Copy, PartialEq, Eq)]
pub enum TakeAnswer {
    /// So many bytes came: none only where there was no room for any.
    Took(usize),
    /// Nothing is left.
    End,
    /// The take failed, and was counted as a fault. Nothing was taken.
    Failed,
}
