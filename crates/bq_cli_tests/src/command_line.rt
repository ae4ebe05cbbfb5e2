//! Words of a command line, and the options or the text that they give.

use bq_program::{OptionFault, Options, Program, WhenFull, names_port, options, with_usual_port};
use std::alloc::{AllocError, Global};

/// Returns the words of a line.
pub fn words_of(alloc: Global, line: &str) -> Result<Vec<&str>, AllocError> {
    let mut words: Vec<&str> = Vec::new(alloc);
    for word in line.split(' ') {
        if words.push(word).is_err() {
            drop(words);
            return Err(AllocError);
        }
    }
    Ok(words)
}

// Returns the options in these words, of which the first names the program.
fn chosen(alloc: Global, line: &str) -> Result<Options, OptionFault> {
    let Ok(words) = words_of(alloc, line) else {
        return Err(OptionFault::NoMemory);
    };
    let program = if line.starts_with("bqd") {
        Program::Bqd
    } else {
        Program::Bq
    };
    let options = options(alloc, program, words.as_slice());
    drop(words);
    options
}

// Words with options: the address, the seats, the size of bodies, the limit on jobs, the delay of
// jobs whose connection is lost, the connections of each seat, and whether the clock stands still
// or one thread serves all seats. Numbers are also at both ends of their ranges. `-V` is there for users of beanstalkd, and changes nothing.
static CHOSEN: &str = "bq|- 1 65535 - 0 - -\n\
    bq --still|- 1 65535 - 0 - still\n\
    bq --max-job-size 1|- 1 1 - 0 - -\n\
    bq --still --max-job-size=1048576|- 1 1048576 - 0 - still\n\
    bq --max-jobs 1|- 1 65535 1 0 - -\n\
    bq --max-jobs 4294967295|- 1 65535 4294967295 0 - -\n\
    bqd --listen a|a 16 65535 - 0 - -\n\
    bqd --listen 127.0.0.1:11300|127.0.0.1:11300 16 65535 - 0 - -\n\
    bqd --listen=[::1]:11300 --seats 1|[::1]:11300 1 65535 - 0 - -\n\
    bqd --listen a --seats 2 --sessions 1|a 2 65535 - 0 1 -\n\
    bqd --listen a --seats 256|a 256 65535 - 0 - -\n\
    bqd --listen a --max-job-size 1|a 16 1 - 0 - -\n\
    bqd --listen=a --max-job-size 1048576|a 16 1048576 - 0 - -\n\
    bqd --listen a --sessions 4294967295|a 16 65535 - 0 4294967295 -\n\
    bqd --listen a --max-jobs 1|a 16 65535 1 0 - -\n\
    bqd --listen a --max-jobs 4294967295|a 16 65535 4294967295 0 - -\n\
    bqd --listen a --requeue-delay 0|a 16 65535 - 0 - -\n\
    bqd --listen a --requeue-delay=4294967295|a 16 65535 - 4294967295 - -\n\
    bqd -l 127.0.0.1 -p 11300 -z 1048576|127.0.0.1:11300 16 1048576 - 0 - -\n\
    bqd -p 0 -l ::1|[::1]:0 16 65535 - 0 - -\n\
    bqd -l [::1] --port 65535 -z1|[::1]:65535 16 1 - 0 - -\n\
    bqd -V -l a|a 16 65535 - 0 - -\n\
    bqd -l a -VVV|a 16 65535 - 0 - -\n\
    bqd -V -l a -V -z 65535 -V|a 16 65535 - 0 - -\n\
    bqd -l ::1|::1 16 65535 - 0 - -\n\
    bqd --event-loop --listen a|a 16 65535 - 0 - loop\n\
    bqd --listen a --event-loop --when-full wait|a 16 65535 - 0 - loop\n\
    bqd --listen a --event-loop --when-full refuse|a 16 65535 - 0 - refuse\n\
    bqd --listen a --seats 9 --event-loop|a 9 65535 - 0 - loop";

fn is_number(number: u32, column: &str) -> bool {
    match column.parse::<u32>() {
        Ok(wanted) => number == wanted,
        Err(_) => false,
    }
}

fn is_limit(limit: Option<u32>, column: &str) -> bool {
    match limit {
        Some(number) => is_number(number, column),
        None => column == "-",
    }
}

fn is_address(address: Option<&str>, column: &str) -> bool {
    match address {
        Some(address) => address == column,
        None => column == "-",
    }
}

fn mark_of(options: &Options) -> &'static str {
    if options.when_full == WhenFull::Refuse {
        return "refuse";
    }
    if options.still && options.event_loop {
        "both"
    } else if options.still {
        "still"
    } else if options.event_loop {
        "loop"
    } else {
        "-"
    }
}

fn is_column(options: &Options, at: usize, column: &str) -> bool {
    match at {
        0 => is_address(options.listen.as_deref(), column),
        1 => is_number(u32::from(options.seats), column),
        2 => is_number(options.max_job_size, column),
        3 => is_limit(options.max_jobs, column),
        4 => is_number(options.requeue_delay, column),
        5 => is_limit(options.sessions, column),
        6 => mark_of(options) == column,
        _ => false,
    }
}

/// Returns true if these are the options of a row.
pub fn are_so(options: &Options, wanted: &str) -> bool {
    let mut at: usize = 0;
    for column in wanted.split(' ') {
        if !is_column(options, at, column) {
            return false;
        }
        at = at.saturating_add(1);
    }
    at == 7
}

// Returns true if the row rejects the words, and this text has the part that it names.
fn is_reason(text: &str, wanted: &str) -> bool {
    match wanted.strip_prefix("bad") {
        Some(part) => !text.is_empty() && text.contains(part.trim()),
        None => false,
    }
}

// A row has the words and, after a bar, their result.
fn is_met(alloc: Global, row: &str) -> bool {
    let Some((line, wanted)) = row.split_once('|') else {
        return false;
    };
    let result_of_words = chosen(alloc, line);
    let is_met = match &result_of_words {
        Ok(options) => are_so(options, wanted),
        Err(OptionFault::BadOptions(text)) => is_reason(text.as_str(), wanted),
        Err(_) => false,
    };
    drop(result_of_words);
    is_met
}

// Returns true if the words of each row have the result after the bar.
fn are_met(alloc: Global, rows: &str) -> bool {
    for row in rows.split('\n') {
        if !is_met(alloc, row) {
            return false;
        }
    }
    true
}

// Words that are rejected, some with a word of the text that says why.
static BAD: &str = "bq --max-job-size 0|bad\n\
    bq --max-job-size 1048577|bad\n\
    bq --max-job-size x|bad\n\
    bq --still more|bad\n\
    bq --listen a|bad\n\
    bq -z 1|bad\n\
    bq --max-jobs 0|bad\n\
    bq --requeue-delay 1|bad\n\
    bq --event-loop|bad\n\
    bqd|bad\n\
    bqd -p 11300|bad\n\
    bqd --listen a --still|bad\n\
    bqd --listen a --event-loop 1|bad\n\
    bqd --listen a --seats 0|bad\n\
    bqd --listen a --seats 257|bad\n\
    bqd --listen a --sessions 0|bad\n\
    bqd --listen a -p 65536|bad\n\
    bqd --listen a --sessions 4294967296|bad\n\
    bqd --listen a --max-jobs 4294967296|bad\n\
    bqd --listen a --requeue-delay 4294967296|bad\n\
    bqd --listen|bad\n\
    bqd --listen 127.0.0.1:|bad is not a number from 0\n\
    bqd --listen [::1]:65536|bad is not a number from 0\n\
    bqd --listen a --when-full refuse|bad needs '--event-loop'\n\
    bqd --listen a --event-loop --when-full never|bad\n\
    bq -V|bad '-V'";

// Addresses, and each with beanstalkd's port if it names none.
static ADDRESSES: &str = "127.0.0.1:80|127.0.0.1:80\n\
    [::1]:80|[::1]:80\n\
    localhost:|localhost:\n\
    127.0.0.1|127.0.0.1:11300\n\
    localhost|localhost:11300\n\
    ::1|[::1]:11300\n\
    [::1]|[::1]:11300";

// Returns true if this is what is bound.
fn is_bound(alloc: Global, address: &str, bound: &str) -> bool {
    if names_port(address) {
        return address == bound;
    }
    match with_usual_port(alloc, address) {
        Ok(found) => {
            let is_same = found.as_str() == bound;
            drop(found);
            is_same
        }
        Err(_) => false,
    }
}

fn are_bound(alloc: Global) -> bool {
    for row in ADDRESSES.split('\n') {
        let (address, bound) = row.split_once('|').unwrap_or((row, ""));
        if !is_bound(alloc, address, bound) {
            return false;
        }
    }
    true
}

#[test]
fn options_in_words(rt: HostRuntime) {
    let alloc = rt.alloc();
    assert!(rt; are_met(alloc, CHOSEN) && are_met(alloc, BAD) && are_bound(alloc));
}
