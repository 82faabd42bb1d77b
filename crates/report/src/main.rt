// The report program: the files `groups`, `types` and `script` of the current folder are checked and run, and the
// report is written to standard output, in the words of the file `words` if there is one. What a program reads and
// writes is in no contract, so `write_report` makes the whole text of the files' bytes in a lent buffer, and what is
// around it only reads, calls it and writes. Each function has the buffers of the call that it makes, so that the
// text's is all that is lent for writing.

#![tactic(auto)]

ghost use Rattle.std.specs.Prelude.{◌≡◌, ◌+◌, ◌≤◌, length, IfOk, IfSome};
ghost use Rattle.rules.specs.Limits.{report_budget, report_buffer};
ghost use Rattle.rules.specs.Script.{encode};
ghost use Rattle.rules.specs.Run.{Ran};
ghost use Rattle.rules.specs.Calls.{run_call};
ghost use Rattle.rules.specs.Report.{value_text, run_text, script_text, report};
ghost use Rattle.reduction.specs.Steps.{reported_end};
ghost use Rattle.memory.specs.Written.{Written};
ghost use Rattle.report.specs.Supplied.{file};
ghost use Rattle.report.specs.Room.{value_room, run_room, report_room};

use inference::SLOT;
use lattice::{GROUP_LIMIT, ROW_WIDTH};
use memory::Writer;
use records::SCRIPT_WIDTH;
use reduction::Stop;
use script::SCRIPT_LIMIT;
use sheet::SHEET_WIDTH;
use std::fs::Files;
use std::io::Read;
use std::{fs, io};
use types::TYPE_WIDTH;
use types_table::TABLE_LIMIT;
use typing::WORK_LENGTH;
use words::{Table, WORDS_LENGTH};

const BUDGET: u64 = 1000;

// The reader group of the sheet.
const READER: u64 = 0;

// A buffer takes one byte more than the longest valid file, so that a longer one is refused for its length.
const GROUPS_LENGTH: usize = GROUP_LIMIT * ROW_WIDTH + 1;

const TYPES_LENGTH: usize = TABLE_LIMIT * TYPE_WIDTH + 1;

const SCRIPT_LENGTH: usize = SCRIPT_LIMIT * SCRIPT_WIDTH + 1;

const WORDS_ROOM: usize = WORDS_LENGTH + 1;

const RUN_LENGTH: usize = SCRIPT_LIMIT * SCRIPT_WIDTH;

const SHEET_LENGTH: usize = SCRIPT_LIMIT * SHEET_WIDTH;

// No report is longer (`report_room`).
const REPORT_LENGTH: usize = 499823;

// The value's text: the sheet of the run's last term for group 0, only when the end is 0.
fn value_text(
    text: &mut Writer,
    words: &Table,
    groups: &[u8],
    types: &[u8],
    value: &[u8],
    stop: Option<Stop>,
)
    requires { text.old.end + value_room ≤ length text.old.out.now }
    ensures { (x : Ran) → x.end ≡ reported_end stop → encode x.last ≡ value.now
        → Written (value_text words.now groups.now types.now x) text.old text.new }
{
    if stop != Some(Stop::Value) {
        return;
    }
    let mut sheet = [0u8; SHEET_LENGTH];
    match sheet::page(groups, types, value, READER, &mut sheet) {
        Ok(count) => lines::sheet_lines(text, words, &sheet[..SHEET_WIDTH * count]),
        Err(refusal) => lines::refusal_line(text, refusal),
    }
}

// The run's text: its line, and the value's text. An accepted script's run isn't refused; the definition has a text for
// every answer, and so has this.
fn run_text(text: &mut Writer, words: &Table, groups: &[u8], types: &[u8], script: &[u8])
    requires { text.old.end + run_room ≤ length text.old.out.now }
    ensures { Written (run_text words.now groups.now types.now
        (run_call groups.now types.now script.now report_budget report_buffer report_buffer))
        text.old text.new }
{
    let mut first = [0u8; RUN_LENGTH];
    let mut scratch = [0u8; RUN_LENGTH];
    match evaluation::run(groups, types, script, BUDGET, &mut first, &mut scratch) {
        Ok(halt) => {
            let end = u64::from(reduction::end_number(halt.stop));
            lines::run_line(text, end, halt.steps, halt.records as u64);
            value_text(
                text,
                words,
                groups,
                types,
                &first[..SCRIPT_WIDTH * halt.records],
                halt.stop,
            );
        }
        Err(refusal) => lines::refusal_line(text, refusal),
    }
}

// The script's text, in the words of a table.
fn script_text(text: &mut Writer, words: &Table, groups: &[u8], types: &[u8], script: &[u8])
    requires { text.old.end + report_room ≤ length text.old.out.now }
    ensures { Written (script_text words.now groups.now types.now script.now) text.old text.new }
{
    let mut work = [0u8; WORK_LENGTH];
    let mut answer = [0u8; SLOT];
    match typing::checking(groups, types, script, &mut work, &mut answer) {
        Ok(records) => {
            lines::accepted_line(text, records as u64);
            run_text(text, words, groups, types, script);
        }
        Err(refusal) => lines::refusal_line(text, refusal),
    }
}

// The whole report. A studio's own words are asked questions 32 to 34 first; where none are supplied, ours are used.
fn write_report(text: &mut Writer, words: Option<&[u8]>, groups: &[u8], types: &[u8], script: &[u8])
    requires { text.old.end + report_room ≤ length text.old.out.now }
    ensures { Written (report (file words.entry) groups.now types.now script.now) text.old text.new }
{
    let Some(supplied) = words else {
        script_text(text, &words::our_words(), groups, types, script);
        return;
    };
    match words::words_check(supplied) {
        Ok(table) => script_text(text, table, groups, types, script),
        Err(refusal) => {
            let question = u64::from(refusal.question.number());
            lines::refused_line(text, question, refusal.place as u64);
        }
    }
}

// An error, and the file or the stream that it came of.
#[derive(Drop)]
struct Failure {
    pub at: &'static str,
    pub error: io::Error,
}

// Fills the buffer from the front until it is full or nothing is left to read. The answer is how many bytes there are.
fn fill(file: &mut impl Read, buffer: &mut [u8]) -> io::Result<usize>
    ensures { IfOk result (λ n. n ≤ length buffer.new) }
{
    let mut n = 0;
    while n < buffer.len() {
        let more = file.read(&mut buffer[n..])?;
        if more == 0 {
            break;
        }
        n += more;
    }
    Ok(n)
}

// How many bytes of a file there are, as many as the buffer takes, if there is such a file.
fn load<R: Files>(rt: &R, path: &'static str, buffer: &mut [u8]) -> Result<Option<usize>, Failure>
    ensures { IfOk result (λ found. IfSome found (λ n. n ≤ length buffer.new)) }
{
    let mut file = match fs::open(rt, path) {
        Ok(file) => file,
        Err(error) if error.kind() == io::ErrorKind::NotFound => return Ok(None),
        Err(error) => return Err(Failure { at: path, error }),
    };
    fill(&mut file, buffer)
        .map(Some)
        .map_err(|error| Failure { at: path, error })
}

// The same of a table or a script, which is empty where there is no such file.
fn load_or_empty<R: Files>(rt: &R, path: &'static str, buffer: &mut [u8]) -> Result<usize, Failure>
    ensures { IfOk result (λ n. n ≤ length buffer.new) }
{
    Ok(load(rt, path, buffer)?.unwrap_or(0))
}

// The report of the files' bytes, on standard output.
fn print_report<R: Print>(
    rt: &R,
    words: Option<&[u8]>,
    groups: &[u8],
    types: &[u8],
    script: &[u8],
) -> Result<(), Failure> {
    let mut out = [0u8; REPORT_LENGTH];
    let mut text = Writer::new(&mut out);
    write_report(&mut text, words, groups, types, script);
    rt.write_all(text.written()).map_err(|error| Failure {
        at: "standard output",
        error,
    })
}

// Reads the file `words` and prints the report. A missing one means ours, and an empty one is refused.
fn report_in_words<R: Files + Print>(
    rt: &R,
    groups: &[u8],
    types: &[u8],
    script: &[u8],
) -> Result<(), Failure> {
    let mut words = [0u8; WORDS_ROOM];
    let found = load(rt, "words", &mut words)?;
    print_report(rt, found.map(|n| &words[..n]), groups, types, script)
}

// Reads the files and prints their report.
fn report_files<R: Files + Print>(rt: &R) -> Result<(), Failure> {
    let mut groups = [0u8; GROUPS_LENGTH];
    let rows = load_or_empty(rt, "groups", &mut groups)?;
    let mut types = [0u8; TYPES_LENGTH];
    let named = load_or_empty(rt, "types", &mut types)?;
    let mut script = [0u8; SCRIPT_LENGTH];
    let written = load_or_empty(rt, "script", &mut script)?;
    report_in_words(rt, &groups[..rows], &types[..named], &script[..written])
}

// An error is told on standard error. Where that takes nothing there is nobody to tell.
fn main(rt: HostRuntime) {
    if let Err(Failure { at, error }) = report_files(&rt) {
        let _ = eprintln!(&rt; "{at}: {error}");
    }
}
