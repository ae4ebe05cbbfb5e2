//! Texts that consist of lines.
ghost use Rattle.std.specs.Prelude.{IfOk, List, codes, flat_map, length, ℕ, ◌++◌, ◌+◌, ◌≡◌, ◌≤◌};
ghost use Rattle.bq_core.specs.Texts.{IsSizeOf};

use super::builder::TextBuilder;
use bq_job::{NoMemory, Text};
use std::alloc::Global;

/// The beginning of each text.
const START: &[u8] = b"---\n";

/// Something that has a line in a text.
pub(crate) trait Line {
    /// The line, with its end.
    ghost line: { Self → List ℕ };

    /// Returns the length of the line in bytes; `None` above 2^64 - 1.
    fn size(&self) -> Option<usize>
        ensures { IsSizeOf (line self.now) result };

    /// Appends the line.
    fn write(&self, text: &mut TextBuilder)
        requires { length (line self.now) ≤ text.old.room }
        ensures bytes { text.new.bytes ≡ text.old.bytes ++ line self.now }
        ensures room { text.old.room ≤ text.new.room + length (line self.now) };
}

// Returns the length of the text of these lines, in bytes.
fn size_of<L: Line>(lines: &[L]) -> Option<usize>
    ensures { IsSizeOf (codes "---\n" ++ flat_map L.line lines.now) result }
{
    let mut size = START.len();
    for line in lines {
        size = size.checked_add(line.size()?)?;
    }
    Some(size)
}

// Appends these lines.
fn write_all<L: Line>(lines: &[L], text: &mut TextBuilder)
    requires { length (flat_map L.line lines.now) ≤ text.old.room }
    ensures { text.new.bytes ≡ text.old.bytes ++ flat_map L.line lines.now }
{
    for line in lines {
        line.write(text);
    }
}

/// Returns the text of these lines, or `NoMemory` if its allocation fails.
pub(crate) fn text_of<L: Line>(alloc: Global, lines: &[L]) -> Result<Text, NoMemory>
    ensures { IfOk result (λ text. text ≡ codes "---\n" ++ flat_map L.line lines.now) }
{
    let Some(size) = size_of(lines) else {
        return Err(NoMemory);
    };
    let mut text = TextBuilder::new(alloc, size)?;
    text.push(START);
    write_all(lines, &mut text);
    Ok(text.finish())
}
