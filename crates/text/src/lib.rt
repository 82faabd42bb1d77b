// Numbers and words, written to a lent buffer.

#![tactic(auto)]

ghost use Rattle.std.specs.Prelude.{◌≡◌};
ghost use Rattle.rules.specs.Words.{word};
ghost use Rattle.rules.specs.Report.{decimal_digits};
ghost use Rattle.memory.specs.Written.{Room, Written};

use itoa::Buffer;
use memory::Writer;
use words::{Table, WORD_LIMIT};

/// Writes a number in decimal, with no zeros in front.
#[tactic(auto, using(crate::proofs::Digits::decimal_is))]
pub fn decimal(out: &mut Writer, number: u64)
    requires { Room (decimal_digits number) out.old }
    ensures { Written (decimal_digits number) out.old out.new }
{
    let mut digits = Buffer::new();
    out.put(digits.format(number).as_bytes());
}

/// Writes the letters of the word of this kind of a sheet's record: none past the table's last word. They go into the
/// buffer that the report program writes, and aren't written one by one: what a program writes is in no contract, and
/// what a buffer holds is.
#[tactic(auto, using(memory::proofs::Placed::nothing, crate::proofs::Words::no_word))]
pub fn word(out: &mut Writer, words: &Table, kind: u8)
    requires { Room (word words.now kind) out.old }
    ensures { Written (word words.now kind) out.old out.new }
{
    let i = usize::from(kind);
    if i < WORD_LIMIT {
        out.put(words::letters(words, i));
    }
}
