//! Whether systemd's journal reads what is reported.

use arrayvec::ArrayString;
use bq_program::LogForm;
use std::fmt::Write;
use std::fs;
use std::fs::Files;
use std::os::unix::fs::MetadataExt;
use std::rt::Env;

/// The variable in which systemd names the file that leads to its journal: its device and its
/// inode, with a colon between them.
const STREAM: &str = "JOURNAL_STREAM";

/// The standard error of the process.
const STANDARD_ERROR: &str = "/proc/self/fd/2";

/// The greatest length of such a name: two numbers of 64 bits and the colon.
const LENGTH: usize = 41;

type Name = ArrayString<LENGTH>;

/// Returns how lines on standard error begin: with priorities if the journal reads them, which is so
/// if `JOURNAL_STREAM` names the file that standard error is. A program that is started with another
/// standard error may inherit the variable nevertheless.
///
/// No clause says what the system returns for either.
pub(crate) fn log_form<R: Env + Files>(rt: &R) -> LogForm {
    let mut room = [0; LENGTH];
    let Ok(length) = rt.var(STREAM, &mut room) else {
        return LogForm::Plain;
    };
    match standard_error(rt) {
        Some(name) if name.as_bytes() == &room[..length] => LogForm::Journal,
        _ => LogForm::Plain,
    }
}

// Returns the name of the file that standard error is, or None if the system does not say.
fn standard_error<R: Files>(rt: &R) -> Option<Name> {
    let file = fs::metadata(rt, STANDARD_ERROR).ok()?;
    let mut name = Name::new();
    write!(name, "{}:{}", file.dev(), file.ino()).ok()?;
    Some(name)
}
