ghost use Rattle.std.specs.Prelude.{◌≡◌};

/// Why a text is no name or no safe path: the first that holds, in this order.
#[derive(Clone, Copy, Debug, PartialEq, Eq)]
pub enum TextFault {
    /// The text has no byte.
    Empty,
    /// The text has more bytes than may stand in it, or a segment of a path has more than 255.
    TooLong,
    /// The byte at this place, counted from 0, is the first that may not stand there; where a segment of a path is
    /// empty, `.` or `..`, it is the segment's start, which may be the text's end.
    BadByte(u64),
    /// The text is good, and there was no memory to keep it.
    OutOfMemory,
}

impl TextFault {
    /// The same fault once more.
    pub fn copy(&self) -> TextFault
        ensures { result ≡ self.now }
    {
        *self
    }
}
