//! How a session ended.

/// How a session ended. The number of each is the exit status of the program.
#[derive(Clone, Copy, Debug, PartialEq, Eq)]
pub enum Status {
    /// 0: the input was read to its end, the text was written whole, and no line was refused.
    Clean,
    /// 1: the same with at least one refused line.
    Refusals,
    /// 2: the words are none of the forms, and the usage line was written whole.
    Words,
    /// 3: the source failed.
    ReadFault,
    /// 4: the sink failed.
    WriteFault,
    /// 5: memory was wanting.
    Memory,
    /// 6: the input is longer than the limit.
    InputTooLong,
}
