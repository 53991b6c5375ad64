/// Why no further line is answered, though the source may have one.
#[derive(Clone, Copy, Debug, PartialEq, Eq)]
pub enum Stopped {
    /// A read of the source failed.
    ReadFailed,
    /// A line has more bytes than are read.
    TooLong,
    /// A write to the sink failed.
    WriteFailed,
    /// Memory was refused.
    Memory,
}
