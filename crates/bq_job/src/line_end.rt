/// How a client's connection ended.
#[derive(Clone, Copy, PartialEq, Eq)]
pub enum LineEnd {
    /// The client sent `quit`.
    Quit,
    /// The client's input ended, and everything that it had sent was answered.
    EndOfInput,
    /// A read of the connection failed.
    ReadFault,
    /// A write to the connection failed.
    WriteFault,
}

/// The first fault of a connection.
#[derive(Clone, Copy, PartialEq, Eq)]
pub enum LineFault {
    /// A read of the connection failed.
    Read,
    /// A write to the connection failed.
    Write,
}
