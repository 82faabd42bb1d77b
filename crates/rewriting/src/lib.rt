// The rewriting of types tables and scripts that were written before a rule changed, and of the old office program's.
// No other crate knows the records of the forms before, and only `importing` and `exporting` know those of the old
// office program.

#![tactic(auto)]

ghost use Rattle.std.specs.Prelude.{◌≡◌, ◌+◌, ◌*◌, ◌≤◌, ◌<◌, length};
ghost use Rattle.rules.specs.Limits.{type_width, script_width, table_limit, script_limit, office_limit};
ghost use Rattle.rules.specs.Office.{office_records, nameless};
ghost use Rattle.rules.specs.Callers.{recursion_of_type, write_callers_of, callers_written_of};
ghost use Rattle.rules.specs.Callers.{write_callers, callers_written, write_office_callers, office_callers_written};
ghost use Rattle.rules.specs.Answer.{byte, accepted};
ghost use Rattle.rules.specs.Rewriting.{widen_types, widen_script, old_types_check, old_script_check};
ghost use Rattle.rules.specs.Rewriting.{rewriting_types, rewriting_script};
ghost use Rattle.answer.specs.Said.{answer_of};
ghost use Rattle.memory.specs.Splice.{splice};
ghost use Rattle.rewriting.specs.Caller.{WrittenAt};
ghost use Rattle.rewriting.specs.HandsOver.{HandsOver};
ghost use Rattle.rewriting.specs.Widened.{widened_records, after_27};

use answer::{Checked, Question, Refusal};
use lattice::Reader;
use records::{Kind, SCRIPT_WIDTH};
use script::SCRIPT_LENGTH;
use types::TYPE_WIDTH;
use types_table::TABLE_LENGTH;

/// The bytes of a type record of the form before creators: its kind, r, ir and a 0.
pub const OLD_TYPE_WIDTH: usize = 4;

/// The bytes of a script record of the form before creators: its kind, r, ir, a 0 and its number.
pub const OLD_SCRIPT_WIDTH: usize = 6;

/// The bytes of a script record of the old office program: its kind, r, ir, a 0, its number and two names.
pub const OFFICE_WIDTH: usize = 10;

/// The most records of a script of the old office program.
pub const OFFICE_LIMIT: usize = 6000;

// What a record has grown by: c and ic.
const CREATORS: usize = 2;

// Byte 1 of a recursion: the group that its call is made as.
const CALLER: usize = 1;

// The fields of record i of a script whose records have this width, and r of record i of a types table: all forms
// begin alike.
fn kind(script: &[u8], width: usize, i: usize) -> u8
    requires wide { 6 ≤ width }
    requires there { width * i + width ≤ length script.now }
    ensures { result ≡ byte script.now (width * i) }
{
    script[width * i]
}

fn number(script: &[u8], width: usize, i: usize) -> usize
    requires wide { 6 ≤ width }
    requires there { width * i + width ≤ length script.now }
    ensures { result ≡ byte script.now (width * i + 4) + 256 * byte script.now (width * i + 5) }
{
    let bytes = [script[width * i + 4], script[width * i + 5]];
    usize::from(u16::from_le_bytes(bytes))
}

fn reader(types: &[u8], width: usize, i: usize) -> Reader
    requires wide { 2 ≤ width }
    requires there { width * i + width ≤ length types.now }
    ensures { result.0 ≡ byte types.now (width * i + 1) }
{
    Reader(types[width * i + types::R])
}

// Is a record of this kind, with this number, a recursion of a type of the table, whose records have this width?
fn recursion_of_type(types: &[u8], width: usize, kind: u8, number: usize) -> bool
    requires { 2 ≤ width }
    ensures { result ≡ recursion_of_type width types.now kind number }
{
    (kind == Kind::Recursion.number()) & (number < types.len() / width)
}

// Puts r of its type into byte 1 of record i, if that is a recursion of a type of the table. Did it write?
fn write_caller(types: &[u8], type_width: usize, script: &mut [u8], width: usize, i: usize) -> bool
    requires types_wide { 2 ≤ type_width }
    requires wide { 6 ≤ width }
    requires there { width * i + width ≤ length script.old }
    ensures { WrittenAt type_width width types.now script.old i result script.new }
{
    let named = number(script, width, i);
    if !recursion_of_type(types, type_width, kind(script, width, i), named) {
        return false;
    }
    let caller = reader(types, type_width, named);
    script[width * i + CALLER] = caller.0;
    true
}

// Puts r of its type into byte 1 of each recursion of a type of the table, in records of these widths. Nothing is
// asked, and every other byte stays. How many records it wrote.
fn write_callers_of(types: &[u8], type_width: usize, script: &mut [u8], width: usize) -> u64
    requires types_wide { 2 ≤ type_width }
    requires wide { 6 ≤ width }
    ensures count { result ≡ callers_written_of type_width width types.now script.old }
    ensures script { script.new ≡ write_callers_of type_width width types.now script.old }
{
    let mut written: u64 = 0;
    for i in 0..script.len() / width {
        written += u64::from(write_caller(types, type_width, script, width, i));
    }
    written
}

/// Puts r of its type into byte 1 of each recursion of a type of the table, in a script of 6-byte records over a
/// types table of 4-byte records. Nothing is asked, and every other byte stays. The answer is how many records it
/// wrote.
pub fn write_callers(types: &[u8], script: &mut [u8]) -> u64
    ensures count { result ≡ callers_written types.now script.old }
    ensures script { script.new ≡ write_callers types.now script.old }
{
    write_callers_of(types, OLD_TYPE_WIDTH, script, OLD_SCRIPT_WIDTH)
}

/// Puts r of its type into byte 1 of each recursion of a type of the table, in a script of the old office program, of
/// 10-byte records, over a types table of the present form. Nothing is asked, and every other byte stays. The answer
/// is how many records it wrote.
pub fn write_office_callers(types: &[u8], script: &mut [u8]) -> u64
    ensures count { result ≡ office_callers_written types.now script.old }
    ensures script { script.new ≡ write_office_callers types.now script.old }
{
    write_callers_of(types, TYPE_WIDTH, script, OFFICE_WIDTH)
}

// The first `kept` bytes of old records of this width, each with group 0 as c and ic after it, to the front of `wide`.
fn widen(old: &[u8], width: usize, kept: usize, count: usize, wide: &mut [u8])
    requires narrow { width ≤ 10 }
    requires within { kept ≤ width }
    requires short { kept ≤ 6 }
    requires few { count ≤ script_limit }
    requires there { width * count ≤ length old.now }
    requires room { (kept + 2) * count ≤ length wide.old }
    ensures { wide.new ≡ splice 0 (widened_records width kept count old.now) wide.old }
{
    let creators = [0u8; CREATORS];
    for i in 0..count {
        let from = width * i;
        let to = (kept + CREATORS) * i;
        memory::put(&old[from..from + kept], wide, to);
        memory::put(&creators, wide, to + kept);
    }
}

/// Writes the records of a script of the old office program without their names, and with group 0 as c and ic, to the
/// front of `wide`. Every other byte stays.
pub fn widen_office(script: &[u8], wide: &mut [u8])
    requires few { office_records script.now ≤ office_limit }
    requires room { script_width * office_records script.now ≤ length wide.old }
    ensures { wide.new ≡ splice 0 (nameless script.now) wide.old }
{
    let count = script.len() / OFFICE_WIDTH;
    widen(script, OFFICE_WIDTH, OLD_SCRIPT_WIDTH, count, wide);
}

// Questions 2 to 12 of an old types table, which goes to the front of `wide` in the new form: 8 of its own length,
// the others of the new form, to which c and ic as group 0 make no difference.
#[tactic(auto, using(answer::proofs::Passed::then_asked, answer::proofs::Passed::stopped), unfolding(rules::specs::Rewriting::old_types_check))]
fn old_types_check(groups: &[u8], types: &[u8], wide: &mut [u8]) -> Checked
    requires { type_width * table_limit ≤ length wide.old }
    ensures asked { answer_of result ≡ old_types_check groups.now types.now }
    ensures written { answer_of result ≡ accepted tt
        → wide.new ≡ splice 0 (widen_types types.now) wide.old }
{
    let a7 = groups_table::groups_check(groups);
    let Ok(()) = a7 else {
        return a7;
    };
    let a8 = types_table::question_8_of(types, OLD_TYPE_WIDTH);
    let Ok(()) = a8 else {
        return a8;
    };
    let count = types.len() / OLD_TYPE_WIDTH;
    widen(types, OLD_TYPE_WIDTH, OLD_TYPE_WIDTH, count, wide);
    let end = TYPE_WIDTH * count;
    types_table::types_check(groups, &wide[..end])
}

// Questions 2 to 19 of an old script over an old types table, each of which goes to the front of a buffer in the new
// form: 8 and 13 of their own lengths, the others of the new form.
#[tactic(auto, using(answer::proofs::Passed::then_asked, answer::proofs::Passed::stopped), unfolding(rules::specs::Rewriting::old_script_check))]
fn old_script_check(
    groups: &[u8],
    types: &[u8],
    script: &[u8],
    table: &mut [u8],
    wide: &mut [u8],
) -> Checked
    requires table_room { type_width * table_limit ≤ length table.old }
    requires script_room { script_width * script_limit ≤ length wide.old }
    ensures asked { answer_of result ≡ old_script_check groups.now types.now script.now }
    ensures written { answer_of result ≡ accepted tt
        → wide.new ≡ splice 0 (widen_script script.now) wide.old }
{
    let a12 = old_types_check(groups, types, table);
    let Ok(()) = a12 else {
        return a12;
    };
    let a13 = script::question_13_of(script, OLD_SCRIPT_WIDTH, &[]);
    let Ok(()) = a13 else {
        return a13;
    };
    let count = script.len() / OLD_SCRIPT_WIDTH;
    widen(script, OLD_SCRIPT_WIDTH, OLD_SCRIPT_WIDTH, count, wide);
    let types_end = TYPE_WIDTH * (types.len() / OLD_TYPE_WIDTH);
    let end = SCRIPT_WIDTH * count;
    syntax::script_check(groups, &table[..types_end], &wide[..end], &[])
}

/// Writes `records`, of `width` bytes each, to the front of `rewritten`; the answer is how many there are. Refused by
/// question 27, `Room`, where they don't fit, and then nothing is written.
pub fn hand_over(records: &[u8], width: usize, rewritten: &mut [u8]) -> Result<usize, Refusal>
    requires { 0 < width }
    ensures { HandsOver width (after_27 records.now (length rewritten.old)) rewritten.old (answer_of result) rewritten.new }
{
    answer::ask(Question::Room, 0, records.len() <= rewritten.len())?;
    memory::put(records, rewritten, 0);
    Ok(records.len() / width)
}

/// Writes a types table of 4-byte records in the present form, with group 0 as c and ic, to the front of `rewritten`;
/// the answer is the record count. Refused where groups and table fail their check, questions 2 to 12, or by question
/// 27, `Room`. They are asked of a copy, so that a refusal writes nothing.
pub fn rewrite_types(groups: &[u8], types: &[u8], rewritten: &mut [u8]) -> Result<usize, Refusal>
    ensures { HandsOver type_width (rewriting_types groups.now types.now (length rewritten.old))
        rewritten.old (answer_of result) rewritten.new }
{
    let mut wide = [0u8; TABLE_LENGTH];
    old_types_check(groups, types, &mut wide)?;
    let end = TYPE_WIDTH * (types.len() / OLD_TYPE_WIDTH);
    hand_over(&wide[..end], TYPE_WIDTH, rewritten)
}

/// Writes a script of 6-byte records over a types table of 4-byte records in the present form, with group 0 as c and
/// ic, to the front of `rewritten`; the answer is the record count. Refused where script and tables fail their check,
/// questions 2 to 19, or by question 27, `Room`. They are asked of copies, so that a refusal writes nothing.
pub fn rewrite_script(
    groups: &[u8],
    types: &[u8],
    script: &[u8],
    rewritten: &mut [u8],
) -> Result<usize, Refusal>
    ensures { HandsOver script_width (rewriting_script groups.now types.now script.now (length rewritten.old))
        rewritten.old (answer_of result) rewritten.new }
{
    let mut table = [0u8; TABLE_LENGTH];
    let mut wide = [0u8; SCRIPT_LENGTH];
    old_script_check(groups, types, script, &mut table, &mut wide)?;
    let end = SCRIPT_WIDTH * (script.len() / OLD_SCRIPT_WIDTH);
    hand_over(&wide[..end], SCRIPT_WIDTH, rewritten)
}
