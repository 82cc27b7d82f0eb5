//! Frames, and what reading and writing one answers.

/// The header of a log file: the letters AFTRLOG, the format's number, and zeros.
pub(crate) const HEADER: [u8; 16] = [65, 70, 84, 82, 76, 79, 71, 1, 0, 0, 0, 0, 0, 0, 0, 0];
/// The empty log: the header and a closed gate.
pub(crate) const EMPTY_LOG: [u8; 17] = [65, 70, 84, 82, 76, 79, 71, 1, 0, 0, 0, 0, 0, 0, 0, 0, 0];
/// An open gate; every other value is closed.
pub(crate) const OPEN: u8 = 1;
/// The least length of a message in bytes.
pub(crate) const LEAST: u32 = 16;
/// The greatest length of a message in bytes.
pub(crate) const MOST: u32 = 65535;

/// What reading the frame at a journal's gate answers.
#[derive(Clone, Copy, Debug, PartialEq, Eq)]
pub enum Frame {
    /// A whole frame with an open gate; its offset is that of the gate.
    Got(u64),
    /// The gate is closed: the log ends here.
    Tail,
    /// At this offset stands an open gate without a whole frame whose length is in range and whose next gate is inside
    /// the file.
    Damaged(u64),
    /// A read failed, and the plant's count of disk faults rose.
    Failed,
    /// There was no room for the message.
    NoMemory,
}

/// What a commit answers.
#[derive(Clone, Copy, Debug, PartialEq, Eq)]
pub enum Commit {
    /// The log has the message, and every stop leaves it.
    Done,
    /// The tail and the need, in bytes, are together over the limit. Nothing was written.
    Full { tail: u64, need: u64, limit: u64 },
    /// A call on the file failed, and the plant's count of disk faults rose. The log has the message or hasn't.
    Failed,
}
