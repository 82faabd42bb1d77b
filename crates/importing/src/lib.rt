// The import of scripts of the old office program: questions 28 to 30, and each variable's number from the names.

#![tactic(auto)]

ghost use Rattle.std.specs.Prelude.{◌≡◌, ◌*◌, ◌≤◌, ◌<◌, length, List, ℕ};
ghost use Rattle.calculus.specs.Terms.{Term};
ghost use Rattle.rules.specs.Answer.{accepted};
ghost use Rattle.rules.specs.Limits.{script_width, depth_limit, office_limit};
ghost use Rattle.rules.specs.Script.{kind, encode, term, depth};
ghost use Rattle.rules.specs.Names.{nearest};
ghost use Rattle.rules.specs.Office.{office_records, office_kind, office_number, first_name, second_name};
ghost use Rattle.rules.specs.Office.{ok29, q28, q29, q30, nameless, import_of, import_call};
ghost use Rattle.answer.specs.Said.{answer_of};
ghost use Rattle.memory.specs.Splice.{splice};
ghost use Rattle.records.specs.Kinds as kinds;
ghost use Rattle.records.specs.Place.{At};
ghost use Rattle.rewriting.specs.HandsOver.{HandsOver};
ghost use Rattle.importing.specs.Check.{office_check};
ghost use Rattle.importing.specs.Fields.{name_over};
ghost use Rattle.importing.specs.Scope.{scope, Importable, Resolved};

use answer::{Checked, Question, Refusal};
use lattice::{Creator, Indirect, IndirectCreator, Property, Reader};
use memory::Writer;
use records::{Kind, SCRIPT_WIDTH};
use rewriting::{OFFICE_LIMIT, OFFICE_WIDTH};
use scope::DEPTH_LIMIT;

// The longest imported script.
const IMPORTED_LENGTH: usize = OFFICE_LIMIT * SCRIPT_WIDTH;

// A variable has no groups.
const NO_GROUPS: Property = Property {
    r: Reader(0),
    ir: Indirect(0),
    c: Creator(0),
    ic: IndirectCreator(0),
};

// The fields of record i of an old script.
fn kind_number_at(script: &[u8], i: usize) -> u8
    requires { i < office_records script.now }
    ensures { result ≡ office_kind script.now i }
{
    script[OFFICE_WIDTH * i]
}

fn number(script: &[u8], i: usize) -> u16
    requires { i < office_records script.now }
    ensures { result ≡ office_number script.now i }
{
    u16::from_le_bytes([script[OFFICE_WIDTH * i + 4], script[OFFICE_WIDTH * i + 5]])
}

fn first_name(script: &[u8], i: usize) -> u16
    requires { i < office_records script.now }
    ensures { result ≡ first_name script.now i }
{
    u16::from_le_bytes([script[OFFICE_WIDTH * i + 6], script[OFFICE_WIDTH * i + 7]])
}

fn second_name(script: &[u8], i: usize) -> u16
    requires { i < office_records script.now }
    ensures { result ≡ second_name script.now i }
{
    u16::from_le_bytes([script[OFFICE_WIDTH * i + 8], script[OFFICE_WIDTH * i + 9]])
}

// 28. 1 to 6,000 whole records?
fn question_28(script: &[u8]) -> Checked
    ensures { answer_of result ≡ q28 script.now }
{
    answer::ask(
        Question::OfficeLength,
        0,
        answer::whole(script.len(), OFFICE_WIDTH, OFFICE_LIMIT),
    )
}

// Are the names that record i doesn't use 0, and a variable's number?
#[tactic(auto, unfolding(rules::specs::Office::ok29))]
fn unused_right(script: &[u8], i: usize) -> bool
    requires { i < office_records script.now }
    ensures { result ≡ ok29 script.now i }
{
    let kind = kind_number_at(script, i);
    let variable = kind == Kind::Variable.number();
    let case = kind == Kind::Case.number();
    let binder = (kind == Kind::Function.number()) | (case | (kind == Kind::Recursion.number()));
    ((variable | binder) | (first_name(script, i) == 0))
        & (case | (second_name(script, i) == 0))
        & (!variable | (number(script, i) == 0))
}

// 29. Is every unused name 0, and every variable's number?
fn question_29(script: &[u8]) -> Checked
    ensures { answer_of result ≡ q29 script.now }
{
    answer::each(
        Question::UnusedNames,
        script.len() / OFFICE_WIDTH,
        |i| unused_right(script, i),
    )
}

// The name that operand j of record i is under, if a binder stands over it: a case's second branch, operand 2, has
// the second.
fn name_over(script: &[u8], i: usize, j: usize) -> u16
    requires { i < office_records script.now }
    ensures { result ≡ name_over script.now i j }
{
    if j == 2 {
        second_name(script, i)
    } else {
        first_name(script, i)
    }
}

// How many of the first n names are nearer than the nearest that is `name`, from the last on; all n, if none is.
fn nearest(names: &[u16], n: usize, name: u16) -> usize
    requires { n ≤ length names.now }
    ensures value { result ≡ nearest name (scope names.now n) }
    ensures within { result ≤ n }
{
    for k in 0..n {
        if names[n - 1 - k] == name {
            return k;
        }
    }
    n
}

// Question 30 of the variable at record i under the first n names, and the variable with its number.
fn resolve_variable(
    old: &[u8],
    i: usize,
    names: &[u16],
    n: usize,
    out: &mut Writer,
) -> Result<usize, Refusal>
    requires ready { (script : List ℕ) × Importable script old.now i n names.now out.old × (kind script i ≡ kinds.variable) }
    requires variable { office_kind old.now i ≡ kinds.variable }
    ensures { (script : List ℕ) (e : Term) → At script i e → kind script i ≡ kinds.variable
        → Resolved old.now i n e names.now out.old (answer_of result) names.now out.new }
{
    let number = nearest(names, n, first_name(old, i));
    answer::ask(Question::BoundNames, i, number < n)?;
    out.put(&records::record(Kind::Variable, NO_GROUPS, number as u16));
    Ok(i + 1)
}

// The term at record i of a script without names, which are at the same records of the old one, with each variable's
// number: question 30 of each record, in script order, under the first n names. Calls are no deeper than the term.
fn resolve(
    script: &[u8],
    old: &[u8],
    i: usize,
    names: &mut [u16],
    n: usize,
    out: &mut Writer,
) -> Result<usize, Refusal>
    requires ready { Importable script.now old.now i n names.old out.old }
    requires same_kinds { (j : ℕ) → j < office_records old.now → office_kind old.now j ≡ kind script.now j }
    ensures { (e : Term) → At script.now i e
        → Resolved old.now i n e names.old out.old (answer_of result) names.new out.new }
{
    let kind = records::kind_of(script, i);
    if kind == Kind::Variable {
        return resolve_variable(old, i, names, n, out);
    }
    out.put(records::part(script, i, i + 1));
    let mut next = i + 1;
    for j in 0..kind.arity() {
        names[n] = name_over(old, i, j);
        let inside = n + usize::from(kind.binders(j));
        next = resolve(script, old, next, names, inside, out)?;
    }
    Ok(next)
}

// Question 30 of an old script, and what it means to the front of `new`: `script` has its records without names, and
// `names` room for one a level.
fn question_30(script: &[u8], old: &[u8], names: &mut [u16], new: &mut [u8]) -> Checked
    requires nameless { script.now ≡ nameless old.now }
    requires whole { encode (term script.now) ≡ script.now }
    requires shallow { depth (term script.now) ≤ depth_limit }
    requires levels { length names.old ≡ depth_limit }
    requires room { length script.now ≤ length new.old }
    ensures asked { answer_of result ≡ q30 old.now }
    ensures written { answer_of result ≡ accepted tt → new.new ≡ splice 0 (import_of old.now) new.old }
{
    let mut out = Writer::new(new);
    resolve(script, old, 0, names, 0, &mut out)?;
    Ok(())
}

// Questions 2 to 12, 28, 14 to 18 and 29 of an old script, whose records without names go to the front of `wide`.
#[tactic(auto, using(answer::proofs::Passed::then_asked, answer::proofs::Passed::stopped), unfolding(crate::specs::Check::office_check))]
fn office_check(groups: &[u8], types: &[u8], old: &[u8], wide: &mut [u8]) -> Checked
    requires { script_width * office_limit ≤ length wide.old }
    ensures asked { answer_of result ≡ office_check groups.now types.now old.now }
    ensures written { answer_of result ≡ accepted tt → wide.new ≡ splice 0 (nameless old.now) wide.old }
{
    let a12 = types_table::types_check(groups, types);
    let Ok(()) = a12 else {
        return a12;
    };
    let a28 = question_28(old);
    let Ok(()) = a28 else {
        return a28;
    };
    rewriting::widen_office(old, wide);
    let end = SCRIPT_WIDTH * (old.len() / OFFICE_WIDTH);
    let a18 = syntax::form_check(groups, types, &wide[..end]);
    let Ok(()) = a18 else {
        return a18;
    };
    question_29(old)
}

/// Writes a script of the old office program in the present form, with group 0 as c and ic, to the front of `script`;
/// the answer is the record count. Refused by the tables' check (questions 2 to 12), by 28, 14 to 18, 29 and 30 of
/// the script, or by 27, `Room`. They are asked of copies, so that a refusal writes nothing.
pub fn import(groups: &[u8], types: &[u8], old: &[u8], script: &mut [u8]) -> Result<usize, Refusal>
    ensures { HandsOver script_width (import_call groups.now types.now old.now (length script.old))
        script.old (answer_of result) script.new }
{
    let mut wide = [0u8; IMPORTED_LENGTH];
    office_check(groups, types, old, &mut wide)?;
    let end = SCRIPT_WIDTH * (old.len() / OFFICE_WIDTH);
    let mut names = [0u16; DEPTH_LIMIT];
    let mut new = [0u8; IMPORTED_LENGTH];
    question_30(&wide[..end], old, &mut names, &mut new)?;
    rewriting::hand_over(&new[..end], SCRIPT_WIDTH, script)
}
