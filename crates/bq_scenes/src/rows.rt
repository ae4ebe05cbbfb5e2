//! Rows of tables that are texts: columns with a bar between one and the next.

use bq_job::LineEnd;

/// Returns a column of a row, or nothing if there is no such column.
pub fn column(row: &'static str, at: usize) -> &'static str {
    let mut left = at;
    for text in row.split('|') {
        if left == 0 {
            return text;
        }
        left -= 1;
    }
    ""
}

/// Returns true if a connection ended in the way with this name.
pub fn is_end(end: LineEnd, name: &str) -> bool {
    let its_name = match end {
        LineEnd::Quit => "quit",
        LineEnd::EndOfInput => "end",
        LineEnd::ReadFault => "read fault",
        LineEnd::WriteFault => "write fault",
    };
    its_name == name
}
