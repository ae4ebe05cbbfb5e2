ghost use Rattle.std.specs.Prelude.{decimal, length, ◌++◌, ◌+◌, ◌≡◌, ◌≤◌};
ghost use Rattle.bq_core.specs.Texts.{value_text};

use super::builder::{TextBuilder, digit_count};
use super::lines::Line;
use std::marker::Model;

/// The value of a key.
#[derive(Clone, Copy)]
pub(crate) enum Value<'a> {
    Number(u64),
    Word(&'a [u8]),
}

impl<'a> Value<'a> {
    fn size(&self) -> usize
        ensures { result ≡ length (value_text self.now) }
    {
        match *self {
            Value::Number(n) => digit_count(n),
            Value::Word(word) => word.len(),
        }
    }

    fn write(&self, text: &mut TextBuilder)
        requires { length (value_text self.now) ≤ text.old.room }
        ensures bytes { text.new.bytes ≡ text.old.bytes ++ value_text self.now }
        ensures room { text.old.room ≤ text.new.room + length (value_text self.now) }
    {
        match *self {
            Value::Number(n) => text.push_number(n),
            Value::Word(word) => text.push(word),
        }
    }
}

/// A line of statistics: a key and its value.
#[derive(Drop)]
pub(crate) struct KeyValue<'a> {
    key: &'a [u8],
    value: Value<'a>,
}

impl<'a> Model for KeyValue<'a> {
    ghost use Rattle.bq_core.specs.Texts.{value_text};
    ghost use Rattle.bq_job.specs.texts.Yaml.{KeyValue as Pair};

    ghost Value = { Pair };

    ghost view = { λ p. (p.key.now, value_text p.value) };
}

impl<'a> Line for KeyValue<'a> {
    ghost use Rattle.bq_job.specs.texts.Yaml.{key_value_line};

    ghost line = { key_value_line };

    fn size(&self) -> Option<usize> {
        let separators = b": \n".len();
        self.key
            .len()
            .checked_add(self.value.size())?
            .checked_add(separators)
    }

    fn write(&self, text: &mut TextBuilder) {
        text.push(self.key);
        text.push(b": ");
        self.value.write(text);
        text.push(b"\n");
    }
}

/// A key whose value is a number.
pub(crate) fn number<'a>(key: &'a [u8], n: u64) -> KeyValue<'a>
    ensures { result ≡ (key.now, decimal n) }
{
    KeyValue {
        key,
        value: Value::Number(n),
    }
}

/// A key whose value is a word.
pub(crate) fn word<'a>(key: &'a [u8], word: &'a [u8]) -> KeyValue<'a>
    ensures { result ≡ (key.now, word.now) }
{
    KeyValue {
        key,
        value: Value::Word(word),
    }
}
