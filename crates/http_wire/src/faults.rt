/// Why no message was read.
#[derive(Clone, Copy, Debug, PartialEq, Eq)]
pub enum WireFault {
    /// The source failed, and its count of faults rose or stands at its last value.
    Failed,
    /// What came is no front of an accepted message: the length of its head, or in a chunked body the
    /// bytes taken.
    Bad(u64),
    /// So many bytes, above the limit of a head or of a body, were taken or declared.
    TooLong(u64),
    /// The input ended after so many bytes of an unfinished message.
    Cut(u64),
    /// Memory ran out.
    Memory,
}
