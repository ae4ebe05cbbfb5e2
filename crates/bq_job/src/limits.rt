/// The largest job body that a server can be set to accept, in bytes.
pub const LARGEST_BODY: u32 = 1_048_576;

/// The largest job body that a server accepts by default, in bytes.
pub const USUAL_BODY: u32 = 65_535;

/// The largest number of clients that can be connected at the same time.
pub const MOST_SEATS: u16 = 256;
