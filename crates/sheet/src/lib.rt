// The sheet of a value for a reader group.

#![tactic(auto)]

ghost use Rattle.std.specs.Prelude.{◌≡◌, true, if◌then◌else◌, ◌+◌, ◌*◌, ◌/◌, ◌^◌, ◌≤◌, ◌<◌, length};
ghost use Rattle.calculus.specs.Terms.{Term, is_value};
ghost use Rattle.rules.specs.Limits.{sheet_width};
ghost use Rattle.rules.specs.Groups.{leq};
ghost use Rattle.rules.specs.Script.{records, kind, r, number, size};
ghost use Rattle.rules.specs.Sheet.{sheet};
ghost use Rattle.rules.specs.Calls.{sheet_call, sheet_records, sheet_after};
ghost use Rattle.answer.specs.Said.{answer_of};
ghost use Rattle.records.specs.Numbers.{kind_number};
ghost use Rattle.records.specs.Place.{At, Here};
ghost use Rattle.memory.specs.Written.{Room, Written};
ghost use Rattle.sheet.specs.Shown.{shown_number, shown_kind, literal_number, shown_line, bytes_of};
ghost use Rattle.sheet.specs.Value.{value_found, SheetRoom, SheetWritten};
ghost use Rattle.sheet.specs.Before.{before_26};

use answer::{Checked, Question, Refusal};
use lattice::{Group, Indirect, Reader};
use memory::Writer;
use records::Kind;

/// The bytes of a sheet record.
pub const SHEET_WIDTH: usize = 6;

/// The kinds of sheet records, in the order of their numbers, from 0 on.
#[derive(Clone, Copy, Debug, PartialEq, Eq)]
pub enum Shown {
    /// A unit.
    Unit,
    /// An injection of the first side. Its part follows.
    First,
    /// An injection of the second side. Its part follows.
    Second,
    /// A pair. Its two parts follow.
    Pair,
    /// A function. Nothing inside it is shown.
    Function,
    /// An object that is closed to the group. Nothing of it is told.
    Closed,
    /// A literal.
    Number,
}

impl Shown {
    /// The first byte of a sheet record of this kind.
    pub fn number(self) -> u8
        ensures { result ≡ shown_number self }
    {
        self as u8
    }
}

// A sheet record.
#[derive(Clone, Copy, Debug, PartialEq, Eq)]
struct Line {
    pub kind: Shown,
    pub r: Reader,
    pub ir: Indirect,
    pub number: u16,
}

// Where a look over a value has come to: the script record after the value, and the sheet record after its own.
#[derive(Clone, Copy, Debug, PartialEq, Eq)]
struct Reached {
    pub next: usize,
    pub line: usize,
}

// Whether the object at record i is open to the group.
fn is_open(groups: &[u8], value: &[u8], i: usize, group: Reader) -> bool
    requires { i < records value.now }
    ensures { result ≡ leq groups.now (r value.now i) group.0 }
{
    records::reader(value, i).at_or_below(groups, group)
}

// The count with an object's own record, if it is shown.
fn counted(shown: bool, count: usize) -> usize
    requires { count + 1 < 2 ^ 64 }
    ensures { result ≡ count + (if shown then 1 else 0) }
{
    count + usize::from(shown)
}

// Is the term at record i a value, where does it end, and how many records has the sheet by then? `count` are before
// it. All of the value is looked at, but nothing inside a closed object is `shown` and counted. Calls are as deep as
// the value, which question 18, whether the term is within the limit of depth, bounds.
fn look(
    groups: &[u8],
    value: &[u8],
    i: usize,
    group: Reader,
    shown: bool,
    count: usize,
) -> Option<Reached>
    requires here { Here value.now i }
    requires before { count ≤ i }
    ensures { (e : Term) → At value.now i e → result ≡ value_found groups.now group.0 shown e i count }
{
    let own = counted(shown, count);
    let inside = shown & is_open(groups, value, i, group);
    match records::kind_of(value, i) {
        // A function's body is neither asked to be a value nor counted.
        Kind::Unit | Kind::Function | Kind::Literal => Some(Reached {
            next: records::end_of(value, i),
            line: own,
        }),
        Kind::FirstInjection | Kind::SecondInjection => look(
            groups,
            value,
            i + 1,
            group,
            inside,
            own,
        ),
        Kind::Pair => {
            let first = look(groups, value, i + 1, group, inside, own)?;
            look(groups, value, first.next, group, inside, first.line)
        }
        _ => None,
    }
}

// The sheet's kind for an object's kind.
#[tactic(auto, unfolding(crate::specs::Shown::shown_kind))]
fn shown_kind(kind: Kind) -> Shown
    ensures { shown_number result ≡ shown_kind (kind_number kind) }
{
    match kind {
        Kind::Literal => Shown::Number,
        Kind::Function => Shown::Function,
        Kind::Pair => Shown::Pair,
        Kind::FirstInjection => Shown::First,
        Kind::SecondInjection => Shown::Second,
        _ => Shown::Unit,
    }
}

// The number that is shown of the object at record i: a literal's, and 0 of all else.
fn literal_number(value: &[u8], i: usize) -> u16
    requires { Here value.now i }
    ensures { result ≡ literal_number (kind value.now i) (number value.now i) }
{
    match records::kind_of(value, i) {
        Kind::Literal => records::number(value, i),
        _ => 0,
    }
}

// The sheet record of the object at record i: its kind, its groups and a literal's number are told, or it is closed.
fn line_of(value: &[u8], i: usize, told: bool) -> Line
    requires { Here value.now i }
    ensures { bytes_of result ≡ shown_line told value.now i }
{
    if told {
        let kind = shown_kind(records::kind_of(value, i));
        let r = records::reader(value, i);
        let ir = records::indirect(value, i);
        let number = literal_number(value, i);
        return Line {
            kind,
            r,
            ir,
            number,
        };
    }
    Line {
        kind: Shown::Closed,
        r: Reader(0),
        ir: Indirect(0),
        number: 0,
    }
}

// Writes a sheet record.
fn put(line: Line, out: &mut Writer)
    requires { Room (bytes_of line) out.old }
    ensures { Written (bytes_of line) out.old out.new }
{
    let [low, high] = line.number.to_le_bytes();
    let bytes = [line.kind.number(), line.r.0, line.ir.0, 0, low, high];
    out.put(&bytes);
}

// Writes the sheet of the value at record i: the object and, where it is open, its parts. The answer is the record
// after the value.
fn write(groups: &[u8], value: &[u8], i: usize, group: Reader, out: &mut Writer) -> usize
    requires { SheetRoom groups.now group.0 value.now i out.old }
    ensures { (e : Term) → At value.now i e → is_value e ≡ true
        → SheetWritten groups.now group.0 i e out.old result out.new }
{
    let open = is_open(groups, value, i, group);
    put(line_of(value, i, open), out);
    if !open {
        return records::end_of(value, i);
    }
    // Only pairs and injections have parts to show.
    match records::kind_of(value, i) {
        Kind::FirstInjection | Kind::SecondInjection => write(groups, value, i + 1, group, out),
        Kind::Pair => {
            let second = write(groups, value, i + 1, group, out);
            write(groups, value, second, group, out)
        }
        _ => records::end_of(value, i),
    }
}

// The questions of the two tables and the script (2 to 19), and then whether the group is in the groups table (25). The
// group is compared as it comes, before it is narrowed.
fn asked(groups: &[u8], types: &[u8], value: &[u8], group: u64) -> Checked
    ensures { answer_of result ≡ before_26 groups.now types.now value.now group }
{
    let a19 = syntax::script_check(groups, types, value, &[]);
    let Ok(()) = a19 else {
        return a19;
    };
    answer::ask(
        Question::Given,
        0,
        group < lattice::row_count(groups) as u64,
    )
}

/// The sheet of the value in `value` for the reader group `group`, written to the front of `sheet`. The answer is the
/// count of its records, of `SHEET_WIDTH` bytes each.
///
/// Refuses, in this order, what the questions of the two tables and the script refuse (2 to 19), at their places; and
/// at place 0 a group that isn't in the groups table (25), a term that is no value (26), and a `sheet` that is too
/// short (27). Bytes of `sheet` behind the written records stay as they were, and all of them where it refuses.
pub fn page(
    groups: &[u8],
    types: &[u8],
    value: &[u8],
    group: u64,
    sheet: &mut [u8],
) -> Result<usize, Refusal>
    ensures answer { answer_of result ≡ sheet_records (sheet_call groups.now types.now value.now group (length sheet.old)) }
    ensures sheet { sheet.new
        ≡ sheet_after (sheet_call groups.now types.now value.now group (length sheet.old)) sheet.old }
{
    asked(groups, types, value, group)?;
    let reader = Reader(group as u8);
    // The records are counted before the first one is written, so that a refusal writes nothing.
    let end = look(groups, value, 0, reader, true, 0).ok_or(Refusal {
        question: Question::Value,
        place: 0,
    })?;
    answer::ask(Question::Room, 0, SHEET_WIDTH * end.line <= sheet.len())?;
    let mut out = Writer::new(sheet);
    write(groups, value, 0, reader, &mut out);
    Ok(end.line)
}
