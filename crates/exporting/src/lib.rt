// The export of scripts to the old office program: each binder is named by its count of binders outside it.

#![tactic(auto)]

ghost use Rattle.std.specs.Prelude.{◌≡◌, ◌≤◌, ◌<◌, length};
ghost use Rattle.calculus.specs.Terms.{Term};
ghost use Rattle.rules.specs.Limits.{office_width};
ghost use Rattle.rules.specs.Script.{records as record_count, kind as kind_at, r, ir, number};
ghost use Rattle.rules.specs.Office.{office_record, export_call};
ghost use Rattle.answer.specs.Said.{answer_of};
ghost use Rattle.records.specs.Numbers.{kind_number};
ghost use Rattle.records.specs.Place.{At};
ghost use Rattle.rewriting.specs.HandsOver.{HandsOver};
ghost use Rattle.exporting.specs.Numbers.{number_in, first_in, second_in};
ghost use Rattle.exporting.specs.Export.{Exportable, Exported};

use answer::{Question, Refusal};
use memory::Writer;
use records::Kind;
use rewriting::{OFFICE_LIMIT, OFFICE_WIDTH};

// What a record of the old office form holds beside its kind and groups.
#[derive(Clone, Copy, Debug, PartialEq, Eq)]
struct Held {
    number: u16,
    first: u16,
    second: u16,
}

// Those of a record of this kind and number with so many binders outside it. A variable's name is that of its binder,
// which has as many binders inside it as the variable's number says.
fn held_by(kind: Kind, number: u16, outside: u16) -> Held
    ensures number { result.number ≡ number_in (kind_number kind) number }
    ensures first { result.first ≡ first_in (kind_number kind) number outside }
    ensures second { result.second ≡ second_in (kind_number kind) outside }
{
    match kind {
        Kind::Variable => Held {
            number: 0,
            first: outside.saturating_sub(number).saturating_sub(1),
            second: 0,
        },
        Kind::Function | Kind::Recursion => Held {
            number,
            first: outside,
            second: 0,
        },
        Kind::Case => Held {
            number,
            first: outside,
            second: outside,
        },
        _ => Held {
            number,
            first: 0,
            second: 0,
        },
    }
}

// Record i, which has this kind, in the old office form. Its creators are not written.
fn office_record(script: &[u8], i: usize, kind: Kind, outside: u16) -> [u8; OFFICE_WIDTH]
    requires there { i < record_count script.now }
    requires kind { kind_number kind ≡ kind_at script.now i }
    ensures { result ≡ office_record (kind_at script.now i) (r script.now i) (ir script.now i)
        (number_in (kind_at script.now i) (number script.now i))
        (first_in (kind_at script.now i) (number script.now i) outside)
        (second_in (kind_at script.now i) outside) }
{
    let held = held_by(kind, records::number(script, i), outside);
    let [low, high] = held.number.to_le_bytes();
    let [first_low, first_high] = held.first.to_le_bytes();
    let [second_low, second_high] = held.second.to_le_bytes();
    [
        kind.number(),
        records::reader(script, i).0,
        records::indirect(script, i).0,
        0,
        low,
        high,
        first_low,
        first_high,
        second_low,
        second_high,
    ]
}

// The term at record i with so many binders outside it, in the old office form; the record after it is returned.
fn write(script: &[u8], i: usize, outside: u16, out: &mut Writer) -> usize
    requires { Exportable script.now i outside out.old }
    ensures { (e : Term) → At script.now i e → Exported i outside e out.old result out.new }
{
    let kind = records::kind_of(script, i);
    out.put(&office_record(script, i, kind, outside));
    let mut next = i + 1;
    for j in 0..kind.arity() {
        let inside = outside + u16::from(kind.binders(j));
        next = write(script, next, inside, out);
    }
    next
}

/// Writes a script in the form of the old office program, without creators, to the front of `old`; the answer is the
/// record count. Each binder is named by its count of binders outside it. Refused where script and tables fail their
/// check (questions 2 to 19), by 28, `OfficeLength`, where it has more than 6,000 records, or by 27, `Room`. A
/// refusal writes nothing.
pub fn export(groups: &[u8], types: &[u8], script: &[u8], old: &mut [u8]) -> Result<usize, Refusal>
    ensures { HandsOver office_width (export_call groups.now types.now script.now (length old.old))
        old.old (answer_of result) old.new }
{
    syntax::script_check(groups, types, script, &[])?;
    let count = records::record_count(script);
    answer::ask(Question::OfficeLength, 0, count <= OFFICE_LIMIT)?;
    answer::ask(Question::Room, 0, OFFICE_WIDTH * count <= old.len())?;
    let mut out = Writer::new(old);
    write(script, 0, 0, &mut out);
    Ok(count)
}
