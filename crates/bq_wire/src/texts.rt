ghost use Rattle.std.specs.Prelude.{◌≡◌, ◌+◌, ◌≤◌, ◌++◌, length, codes, decimal, true};
ghost use Rattle.bq_job.specs.texts.AnswerText as spec;
ghost use Rattle.bq_job.specs.reading.Line.{line_end};
ghost use Rattle.bq_wire.specs.Heads.{is_word};

use crate::head_buf::HeadBuf;
use bq_job::Answer;
use itoa::Buffer;

// Appends the decimal digits of a number to the head.
fn push_number(head: &mut HeadBuf, n: u64)
    requires { length head.old + 20 ≤ 256 }
    ensures text { head.new ≡ head.old ++ decimal n }
    ensures short { length head.new ≤ length head.old + 20 }
{
    let mut digits = Buffer::new();
    head.push_few(digits.format(n).as_bytes());
}

// A word, a number and CR LF.
fn number_head(head: &mut HeadBuf, word: &[u8], n: u64)
    requires { length word.now ≤ 16 }
    ensures { head.new ≡ word.now ++ decimal n ++ line_end }
{
    head.clear();
    head.push(word);
    push_number(head, n);
    head.push(b"\r\n");
}

// A word, the id of a job, the number of bytes in its body, and CR LF.
fn job_head(head: &mut HeadBuf, word: &[u8], id: u64, size: usize)
    requires { length word.now ≤ 16 }
    ensures { head.new ≡ word.now ++ decimal id ++ codes " " ++ decimal size ++ line_end }
{
    head.clear();
    head.push(word);
    push_number(head, id);
    head.push(b" ");
    push_number(head, size as u64);
    head.push(b"\r\n");
}

fn using_head(head: &mut HeadBuf, tube: &[u8])
    requires { length tube.now ≤ 200 }
    ensures { head.new ≡ codes "USING " ++ tube.now ++ line_end }
{
    head.clear();
    head.push(b"USING ");
    head.push(tube);
    head.push(b"\r\n");
}

// The head of an answer without a number or a name, which is a word with its CR LF, or nothing.
fn word(answer: &Answer) -> &[u8]
    ensures head { is_word answer.now ≡ true → result.now ≡ spec.answer_head answer.now }
    ensures short { length result.now ≤ 256 }
{
    match answer {
        Answer::Kicked => b"KICKED\r\n",
        Answer::Deleted => b"DELETED\r\n",
        Answer::Released => b"RELEASED\r\n",
        Answer::Buried => b"BURIED\r\n",
        Answer::Touched => b"TOUCHED\r\n",
        Answer::Paused => b"PAUSED\r\n",
        Answer::NotFound => b"NOT_FOUND\r\n",
        Answer::NotIgnored => b"NOT_IGNORED\r\n",
        Answer::Draining => b"DRAINING\r\n",
        Answer::OutOfMemory => b"OUT_OF_MEMORY\r\n",
        Answer::TimedOut => b"TIMED_OUT\r\n",
        Answer::DeadlineSoon => b"DEADLINE_SOON\r\n",
        Answer::UnknownCommand => b"UNKNOWN_COMMAND\r\n",
        Answer::BadFormat => b"BAD_FORMAT\r\n",
        Answer::JobTooBig => b"JOB_TOO_BIG\r\n",
        Answer::ExpectedCrlf => b"EXPECTED_CRLF\r\n",
        _ => &[],
    }
}

/// Replaces the contents of `head` by the head of the answer. It allocates nothing.
pub fn answer_head(answer: &Answer, head: &mut HeadBuf)
    ensures { head.new ≡ spec.answer_head answer.now }
{
    match answer {
        Answer::Inserted(id) => number_head(head, b"INSERTED ", *id),
        Answer::Reserved(id, body) => job_head(head, b"RESERVED ", *id, body.as_slice().len()),
        Answer::Found(id, body) => job_head(head, b"FOUND ", *id, body.as_slice().len()),
        Answer::Ok(text) => number_head(head, b"OK ", text.as_slice().len() as u64),
        Answer::Using(tube) => using_head(head, tube.as_slice()),
        Answer::Watching(count) => number_head(head, b"WATCHING ", *count),
        Answer::KickedCount(count) => number_head(head, b"KICKED ", *count),
        // The most frequent one of the others. Its length is known here, so that no call copies it.
        Answer::Deleted => {
            head.clear();
            head.push(b"DELETED\r\n");
        }
        _ => {
            head.clear();
            head.push(word(answer));
        }
    }
}

/// Returns the bytes between head and tail: a job's body, a YAML text, or nothing.
pub fn answer_body(answer: &Answer) -> &[u8]
    ensures { result.now ≡ spec.answer_body answer.now }
{
    match answer {
        Answer::Reserved(_, body) | Answer::Found(_, body) => body.as_slice(),
        Answer::Ok(text) => text.as_slice(),
        _ => &[],
    }
}

/// Returns the CR LF after a body, even an empty one. Answers without a body have no tail.
pub fn answer_tail(answer: &Answer) -> &[u8]
    ensures { result.now ≡ spec.answer_tail answer.now }
{
    match answer {
        Answer::Reserved(..) | Answer::Found(..) | Answer::Ok(_) => b"\r\n",
        _ => &[],
    }
}
