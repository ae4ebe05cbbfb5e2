//! Hostile bytes, each cut at every byte, and cut in two at every place. What the command lines of
//! all commands ask is compared by `tests/model`, and worked sessions are in `bq_cli_tests`.

use crate::pieces::{is_read_in, push_text};
use std::alloc::Global;

// Returns true if a text has these requests, however it is cut in two, and byte by byte. The first
// of these is the text in one piece.
fn is_read(alloc: Global, limit: u32, text: &[u8], wanted: &[u8]) -> bool {
    for at in 0..=text.len() {
        if !is_read_in(alloc, limit, text, at, text.len(), wanted) {
            return false;
        }
    }
    is_read_in(alloc, limit, text, 1, 1, wanted)
}

// A row of the table: the limit on bodies, a text, and its requests in short form.
fn is_row_right(alloc: Global, row: &str) -> bool {
    let (limit, rest) = row.split_once('|').unwrap_or((row, ""));
    let (text, wanted) = rest.split_once('|').unwrap_or((rest, "no requests"));
    let limit = limit.parse::<u32>().unwrap_or(0);
    let mut bytes = Vec::new(alloc);
    push_text(&mut bytes, text) && is_read(alloc, limit, &bytes, wanted.as_bytes())
}

// Command lines and bodies at their limits, and bytes that are nearly commands.
static ROWS: &str = "65535|put 0 0 1 @03~abc~|put abc;&\
    65535|put 0 0 1 @003~abc~|102;101;&\
    65535|@zzzzzzzzzzzz~|101;&\
    65535|@zzzzzzzzzzzzz~|102;&\
    65535|@zzzzzzzzzzzzz^~reserve~|102;reserve;&\
    65535|delete @9@9~reserve~|102;reserve;&\
    65535|quit^~|101;&\
    65535|use a^b~|102;&\
    65535|peek 18446744073709551615~peek 18446744073709551616~|peek 18446744073709551615;102;&\
    65535|put 0 0 1 4294967296~list-tube-used~|102;list-tube-used;&\
    65535|put 0 0 1 4294967295~abc|&\
    65535|put 0 0 9 6~quit~~reserve~|put quit\r\n;reserve;&\
    65535|put 0 0 9 10~reserve~quit~~delete 3~|104;101;101;delete 3;&\
    2|put 0 0 1 2~ab~put 0 0 1 3~quit~~delete 1~|put ab;103;101;delete 1;&\
    65535|quit%quit~^^~%~|101;101;101;&\
    65535|quit~reserve~|quit;&\
    65535|\0\u{e9}~put 0 0 1 3~\0\u{e9}~|101;put \0\u{e9};&\
    65535|put 0 0 1 1~a^Xput 0 0 1 1~aX%put 0 0 1 1~^~|104;104;put \r;";

fn are_right(alloc: Global) -> bool {
    for row in ROWS.split('&') {
        if !is_row_right(alloc, row) {
            return false;
        }
    }
    true
}

#[test]
fn cut_rows(rt: HostRuntime) {
    assert!(rt; are_right(rt.alloc()));
}
