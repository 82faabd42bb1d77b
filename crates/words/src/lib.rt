// The check of a words table, questions 32 to 34; the letters of a word; and the table of our own words.

#![tactic(auto)]

ghost use Rattle.std.specs.Prelude.{◌≡◌, ◌*◌, ◌≤◌, ◌<◌, length, take, drop, OnOk, IfOk, IfErr};
ghost use Rattle.rules.specs.Limits.{word_width, word_limit, words_length};
ghost use Rattle.rules.specs.Answer.{accepted, refused};
ghost use Rattle.rules.specs.Words.{is_letter, letters, word, same_word, ok33, ok34, q33, q34, words_check};
ghost use Rattle.rules.specs.Report.{our_words};
ghost use Rattle.answer.specs.Numbers.{question_number};
ghost use Rattle.answer.specs.Said.{answer_of};

use answer::{Checked, Question, Refusal};

/// The bytes of a word: its letters, and zeros after them.
pub const WORD_WIDTH: usize = 12;

/// How many words a table has.
pub const WORD_LIMIT: usize = 7;

/// The bytes of a words table.
pub const WORDS_LENGTH: usize = WORD_LIMIT * WORD_WIDTH;

/// The bytes of a words table: what passes question 32.
pub type Table = [u8; WORDS_LENGTH];

fn is_letter(c: u8) -> bool
    ensures { result ≡ is_letter c }
{
    c.is_ascii_lowercase()
}

// The bytes of word i.
fn word(words: &Table, i: usize) -> &[u8]
    requires { i < word_limit }
    ensures { result.now ≡ take word_width (drop (word_width * i) words.now) }
{
    let start = WORD_WIDTH * i;
    &words[start..start + WORD_WIDTH]
}

/// The letters that word `index` starts with.
pub fn letters(words: &Table, index: usize) -> &[u8]
    requires { index < word_limit }
    ensures bytes { result.now ≡ word words.now index }
    ensures count { length result.now ≡ letters words.now index }
    ensures within { length result.now ≤ word_width }
{
    let bytes = word(words, index);
    let end = bytes.iter().position(|c| !is_letter(*c));
    &bytes[..end.unwrap_or(WORD_WIDTH)]
}

// Has word i at least one letter, and after its letters zero bytes?
fn well_formed(words: &Table, i: usize) -> bool
    requires { i < word_limit }
    ensures { result ≡ ok33 words.now i }
{
    let n = letters(words, i).len();
    1 <= n && word(words, i)[n..].iter().all(|c| *c == 0)
}

// Are words i and j equal?
fn same_word(words: &Table, i: usize, j: usize) -> bool
    requires first { i < word_limit }
    requires second { j < word_limit }
    ensures { result ≡ same_word words.now i j }
{
    word(words, i) == word(words, j)
}

// Does word i differ from each before it?
fn differs(words: &Table, i: usize) -> bool
    requires { i < word_limit }
    ensures { result ≡ ok34 words.now i }
{
    answer::all(i, |j| !same_word(words, i, j))
}

// 33. Is each word 1 to 12 letters, then zero bytes?
fn question_33(words: &Table) -> Checked
    ensures { answer_of result ≡ q33 words.now }
{
    answer::each(Question::Letters, WORD_LIMIT, |i| well_formed(words, i))
}

// 34. Does each word differ from those before it?
fn question_34(words: &Table) -> Checked
    ensures { answer_of result ≡ q34 words.now }
{
    answer::each(Question::DistinctWords, WORD_LIMIT, |i| differs(words, i))
}

/// The check of a words table, of any bytes: questions 32 to 34, in order. The table is lent on, or the first refusal.
pub fn words_check(words: &[u8]) -> Result<&Table, Refusal>
    ensures accepted { OnOk result (words_check words.now ≡ accepted tt) }
    ensures table { IfOk result (λ table. table.now ≡ words.now) }
    ensures refused { IfErr result
        (λ refusal. words_check words.now ≡ refused (question_number refusal.question) refusal.place) }
{
    let Ok(table) = <&Table>::try_from(words) else {
        return Err(Refusal {
            question: Question::WordsLength,
            place: 0,
        });
    };
    question_33(table)?;
    question_34(table)?;
    Ok(table)
}

/// The table of our own words, which passes the check.
pub fn our_words() -> Table
    ensures { result ≡ our_words }
{
    let mut words = [0; WORDS_LENGTH];
    memory::put(b"unit", &mut words, 0);
    memory::put(b"first", &mut words, WORD_WIDTH);
    memory::put(b"second", &mut words, 2 * WORD_WIDTH);
    memory::put(b"pair", &mut words, 3 * WORD_WIDTH);
    memory::put(b"function", &mut words, 4 * WORD_WIDTH);
    memory::put(b"closed", &mut words, 5 * WORD_WIDTH);
    memory::put(b"number", &mut words, 6 * WORD_WIDTH);
    words
}
