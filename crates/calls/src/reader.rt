// A line, read field by field.
ghost use Rattle.std.specs.Prelude.{◌≡◌, ℕ, List, suc, ◌≤◌, ◌==◌, length, take, count_by, position};
ghost use Rattle.std.specs.Option.{option_map};
ghost use Rattle.calls.specs.Names.{account_of};
ghost use Rattle.calls.specs.Splits.{split, left_at, next, later};

use fields::account::is_account;
use fields::value::FieldValue;
use std::marker::Model;

// The line, and the place that its reader has come to: a rule of the project. Past the last field every further one is empty.
#[derive(Drop)]
pub(crate) struct Reader<'a> {
    line: &'a [u8],
    at: usize,
}

// Contracts see the fields that are yet to be taken.
impl<'a> Model for Reader<'a> {
    ghost Value = { List (List ℕ) };

    ghost view = { λ r. left_at r.line.now r.at };
}

fn first_comma(bytes: &[u8]) -> Option<usize>
    ensures { result ≡ position (λ c. c == 44) bytes.now }
{
    bytes.iter().position(|byte| *byte == b',')
}

// How many bytes stand before the first comma, or before the end.
fn field_len(bytes: &[u8]) -> usize
    ensures within { result ≤ length bytes.now }
    ensures value { take result bytes.now ≡ next (split bytes.now) }
    ensures after { left_at bytes.now (suc result) ≡ later (split bytes.now) }
{
    first_comma(bytes).unwrap_or(bytes.len())
}

// How many fields follow the first one: each has a comma before it.
pub(crate) fn later_count(line: &[u8]) -> usize
    ensures { result ≡ length (later (split line.now)) }
{
    commas(line)
}

fn commas(bytes: &[u8]) -> usize
    ensures { result ≡ count_by (λ c. c == 44) bytes.now }
{
    bytes.iter().filter(|byte| **byte == b',').count()
}

impl<'a> Reader<'a> {
    pub(crate) fn new(line: &'a [u8]) -> Self
        ensures { result ≡ split line.now }
    {
        Reader { line, at: 0 }
    }

    // The next field's bytes. That a reader goes one field on is what each method promises of its step, and no fact about a
    // value.
    pub(crate) fn field(&mut self) -> &'a [u8]
        ensures value { result.now ≡ next self.old }
        ensures after { self.new ≡ later self.old }
    {
        let line = self.line;
        let from = self.at;
        if from > line.len() {
            return &line[0..0];
        }
        let len = field_len(&line[from..]);
        self.at = from + len + 1;
        &line[from..from + len]
    }

    // The next field, where it is an account. Its value is a part of the line, and a `FieldValue` holds none.
    pub(crate) fn account(&mut self) -> Option<&'a [u8]>
        ensures value { option_map (λ x. x.now) result ≡ account_of (next self.old) }
        ensures after { self.new ≡ later self.old }
    {
        let bytes = self.field();
        is_account(bytes).then_some(bytes)
    }

    // The next field's value.
    pub(crate) fn value<T: FieldValue>(&mut self) -> Option<T>
        ensures value { result ≡ T.value_of (next self.old) }
        ensures after { self.new ≡ later self.old }
    {
        T::read(self.field())
    }
}
