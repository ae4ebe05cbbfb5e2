//! The standard descriptors of a program: its input, its output and its errors.

use libc::{EBADF, SEEK_CUR};
use std::os::fd::RawFd;

/// The number of standard descriptors: 0, 1 and 2.
const STANDARD: RawFd = 3;

/// The descriptor of a program's standard input.
pub(crate) const STANDARD_INPUT: RawFd = 0;

const NULL_DEVICE: &[u8] = b"/dev/null";

/// Opens `/dev/null` at each of the descriptors 0 to 2 that is closed. Otherwise sockets would get
/// these numbers: notices for standard error would go to a client, and a client or the listener
/// would be read as the control line.
///
/// It has to be called before the program opens anything. If `/dev/null` cannot be opened, the
/// descriptors stay closed. No clause says what the system did.
pub fn open_standard_descriptors() {
    for fd in 0..STANDARD {
        if is_closed(fd) {
            // The system returns the lowest free number, which is this one.
            let _same = os::open_update(NULL_DEVICE);
        }
    }
}

/// Puts `/dev/null` in the place of the standard input, so that each further read of it meets the
/// end. If `/dev/null` cannot be opened, each further read fails.
pub(crate) fn end_standard_input() {
    let _closed = libc::close(STANDARD_INPUT);
    // The system returns the lowest free number, which is this one.
    let _same = os::open_update(NULL_DEVICE);
}

fn is_closed(fd: RawFd) -> bool {
    libc::lseek(fd, 0, SEEK_CUR) < 0 && os::errno() == EBADF
}
