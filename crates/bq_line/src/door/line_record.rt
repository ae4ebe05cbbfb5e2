ghost use Rattle.std.specs.Prelude.{◌≡◌, [], ◌∷◌, ◌++◌};
ghost use Rattle.bq_line.specs.LineNumbers.{numbers_with_line};

use crate::line::Line;
use boxcar::tag::{Names, Tag};
use bq_job::LineEnd;
use std::marker::Model;

/// The connections that have ended, in the order in which they were shut, for proofs: it takes no
/// memory, and its methods do nothing at run time.
#[derive(Drop)]
pub struct LineRecord {
    tag: Tag,
}

impl Model for LineRecord {
    ghost use Rattle.std.specs.Prelude.{List};
    ghost use Rattle.bq_job.specs.promise.History.{LineOver};
    ghost use Rattle.bq_line.specs.LineNumbers.{lines_of_numbers};

    ghost Value = { List LineOver };

    ghost view = { λ r. lines_of_numbers r.tag.numbers };
}

impl LineRecord {
    /// Returns a record without connections.
    pub fn new() -> LineRecord
        ensures { result ≡ [] }
    {
        LineRecord { tag: Tag::empty() }
    }

    /// Adds a connection and how it ended.
    pub fn note<L: Line>(&mut self, line: &L, end: LineEnd)
        ensures { self.new ≡ self.old ++ record { seen = L.seen line.now; over = end } ∷ [] }
    {
        self.tag = with_line(&self.tag, line, end);
    }
}

const _: () = prove!(size_of::<LineRecord>() == 0);

// A tag and one more connection.
#[derive(Drop)]
struct Further<'a, L: Line> {
    tag: &'a Tag,
    line: &'a L,
    end: LineEnd,
}

struct Noted;

impl<'a, L: Line> Names<Further<'a, L>> for Noted {
    ghost use Rattle.bq_line.specs.LineNumbers.{numbers_with_line};

    ghost numbers = { λ f. numbers_with_line (record { seen = L.seen f.line.now; over = f.end }) f.tag.now.numbers };
}

fn with_line<L: Line>(tag: &Tag, line: &L, end: LineEnd) -> Tag
    ensures { result.numbers
        ≡ numbers_with_line (record { seen = L.seen line.now; over = end }) tag.now.numbers }
{
    Tag::of::<Further<'_, L>, Noted>(&Further { tag, line, end })
}
