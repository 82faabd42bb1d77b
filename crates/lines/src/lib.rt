// The report's lines.

#![tactic(auto)]

ghost use Rattle.std.specs.Prelude.{◌++◌};
ghost use Rattle.rules.specs.Report.{decimal_digits, refusal_line, accepted_line, run_line, printed_number, sheet_line};
ghost use Rattle.rules.specs.Report.{sheet_lines};
ghost use Rattle.answer.specs.Numbers.{question_number};
ghost use Rattle.memory.specs.Written.{Room, Written};

use answer::Refusal;
use lattice::{Indirect, Reader};
use memory::Writer;
use sheet::{SHEET_WIDTH, Shown};
use words::Table;

// A word and a number.
#[tactic(auto, using(memory::proofs::Placed::room_first, memory::proofs::Placed::room_next))]
fn named(text: &mut Writer, word: &[u8], n: u64)
    requires { Room (word.now ++ decimal_digits n) text.old }
    ensures { Written (word.now ++ decimal_digits n) text.old text.new }
{
    text.put(word);
    text::decimal(text, n);
}

/// Writes the line of a refusal by numbers: "refused 21 at 0", what was asked and where. Any two numbers have one.
#[tactic(auto, unfolding(rules::specs::Report::refusal_line, rules::specs::Report::text), using(memory::proofs::Placed::room_first, memory::proofs::Placed::room_next))]
pub fn refused_line(text: &mut Writer, question: u64, place: u64)
    requires { Room (refusal_line question place) text.old }
    ensures { Written (refusal_line question place) text.old text.new }
{
    named(text, b"refused ", question);
    named(text, b" at ", place);
    text.put(b"\n");
}

/// Writes the line of a refusal: the question's number and the place.
pub fn refusal_line(text: &mut Writer, refusal: Refusal)
    requires { Room (refusal_line (question_number refusal.question) refusal.place) text.old }
    ensures { Written (refusal_line (question_number refusal.question) refusal.place) text.old text.new }
{
    let question = u64::from(refusal.question.number());
    refused_line(text, question, refusal.place as u64);
}

/// Writes the line of an accepted script: "accepted 3", the records of its type.
#[tactic(auto, unfolding(rules::specs::Report::accepted_line, rules::specs::Report::text), using(memory::proofs::Placed::room_first, memory::proofs::Placed::room_next))]
pub fn accepted_line(text: &mut Writer, records: u64)
    requires { Room (accepted_line records) text.old }
    ensures { Written (accepted_line records) text.old text.new }
{
    named(text, b"accepted ", records);
    text.put(b"\n");
}

/// Writes the line of a run: "end 0 steps 2 records 2", the end's number, the steps made and the last term's records.
#[tactic(auto, unfolding(rules::specs::Report::run_line, rules::specs::Report::text), using(memory::proofs::Placed::room_first, memory::proofs::Placed::room_next))]
pub fn run_line(text: &mut Writer, end: u64, steps: u64, records: u64)
    requires { Room (run_line end steps records) text.old }
    ensures { Written (run_line end steps records) text.old text.new }
{
    named(text, b"end ", end);
    named(text, b" steps ", steps);
    named(text, b" records ", records);
    text.put(b"\n");
}

// A literal's number, and nothing of all else.
fn printed_number(text: &mut Writer, kind: u8, number: u16)
    requires { Room (printed_number kind number) text.old }
    ensures { Written (printed_number kind number) text.old text.new }
{
    if kind == Shown::Number.number() {
        named(text, b" ", u64::from(number));
    }
}

// as: closed 0 0, or number 0 0 7, in the words of a table
#[tactic(auto, unfolding(rules::specs::Report::sheet_line, rules::specs::Report::text), using(memory::proofs::Placed::room_first, memory::proofs::Placed::room_next))]
fn sheet_line(text: &mut Writer, words: &Table, kind: u8, r: Reader, ir: Indirect, number: u16)
    requires { Room (sheet_line words.now kind r.0 ir.0 number) text.old }
    ensures { Written (sheet_line words.now kind r.0 ir.0 number) text.old text.new }
{
    text::word(text, words, kind);
    named(text, b" ", u64::from(r.0));
    named(text, b" ", u64::from(ir.0));
    printed_number(text, kind, number);
    text.put(b"\n");
}

/// Writes a line for each whole record of 6 bytes of a sheet, in the words of a table: "closed 0 0" or "number 0 0
/// 7", the kind, the readers, the indirect readers and a literal's number. Bytes past the last whole record have
/// none.
pub fn sheet_lines(text: &mut Writer, words: &Table, sheet: &[u8])
    requires { Room (sheet_lines words.now sheet.now) text.old }
    ensures { Written (sheet_lines words.now sheet.now) text.old text.new }
{
    for record in sheet.chunks_exact(SHEET_WIDTH) {
        sheet_line(
            text,
            words,
            record[0],
            Reader(record[1]),
            Indirect(record[2]),
            u16::from_le_bytes([record[4], record[5]]),
        );
    }
}
