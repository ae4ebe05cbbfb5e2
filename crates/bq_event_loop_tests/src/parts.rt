//! The notation of what clients do. The parts of a text are separated by ` + `. A part is bytes, as
//! module `notation` has them; `after 9`, where the client sends no more until it has received 9
//! bytes; `all 9`, where it waits until all clients together have received 9 bytes; `stops 9`,
//! where it receives no bytes until then; or `fails`, where its connection fails.

/// A part of what a client does.
#[derive(Clone, Copy)]
pub enum Part {
    /// It sends bytes.
    Bytes,
    /// It sends no more until it has received this many bytes.
    After(u64),
    /// It sends no more until all clients together have received this many bytes.
    All(u64),
    /// It receives no bytes until all clients together have received this many.
    Stops(u64),
    /// Its connection fails: each further read returns an error.
    Fails,
    /// Its input has ended.
    End,
}

/// Returns the part with this text.
pub fn part_of(text: &str) -> Part {
    let (word, rest) = text.split_once(' ').unwrap_or((text, ""));
    let count = rest.parse::<u64>().unwrap_or(0);
    match word {
        "after" => Part::After(count),
        "all" => Part::All(count),
        "stops" => Part::Stops(count),
        "fails" => Part::Fails,
        _ => Part::Bytes,
    }
}
