// The check of a script: a function for each of its questions 13 to 17, 36 and 39.

#![tactic(auto)]

ghost use Rattle.std.specs.Prelude.{◌≡◌, ◌&&◌, ◌<◌, nat_eq, nat_lt};
ghost use Rattle.rules.specs.Script.{records, kind, is_object, ok14, ok15, ok36_object, ok16, sum_of_units};
ghost use Rattle.rules.specs.Script.{q13_of, q13, q14, q15, q36_objects, q16, q17};
ghost use Rattle.rules.specs.Profile.{ok39, q39};
ghost use Rattle.rules.specs.Types.{type_count, type_kind};
ghost use Rattle.answer.specs.Said.{answer_of};

use answer::{Checked, Question};
use records::{Kind, SCRIPT_WIDTH};
use types::TYPE_WIDTH;

/// The most records of a script.
pub const SCRIPT_LIMIT: usize = 8192;

/// The bytes of the longest script.
pub const SCRIPT_LENGTH: usize = SCRIPT_LIMIT * SCRIPT_WIDTH;

/// Whole records of `width` bytes, 1 to 8,192, and no longer than any of the buffers of these lengths? Question 13,
/// `ScriptLength`. A run has two buffers, other calls none. Records of an earlier form have another width.
pub fn question_13_of(script: &[u8], width: usize, buffers: &[usize]) -> Checked
    requires { 0 < width }
    ensures { answer_of result ≡ q13_of width buffers.now script.now }
{
    let whole = answer::whole(script.len(), width, SCRIPT_LIMIT);
    let fits = buffers.iter().all(|room| script.len() <= *room);
    answer::ask(Question::ScriptLength, 0, whole & fits)
}

/// Whole records of 8 bytes, 1 to 8,192, and no longer than any of the buffers of these lengths? Question 13,
/// `ScriptLength`.
pub fn question_13(script: &[u8], buffers: &[usize]) -> Checked
    ensures { answer_of result ≡ q13 buffers.now script.now }
{
    question_13_of(script, SCRIPT_WIDTH, buffers)
}

// Is the kind of record i at most 14, and are its unnamed fields 0?
#[tactic(auto, unfolding(rules::specs::Script::ok14))]
fn fields_right(script: &[u8], i: usize) -> bool
    requires { i < records script.now }
    ensures { result ≡ ok14 script.now i }
{
    let Some(kind) = records::kind_at(script, i) else {
        return false;
    };
    let named = kind.signature();
    let p = records::property(script, i);
    (records::zero_byte(script, i) == 0)
        & (named.r | (p.r.0 == 0))
        & (named.ir | (p.ir.0 == 0))
        & (named.number | (records::number(script, i) == 0))
        & (named.c | (p.c.0 == 0))
        & (named.ic | (p.ic.0 == 0))
}

/// A kind that there is, and 0 in every field that the kind does not name? Question 14, `Fields`, of every record.
pub fn question_14(script: &[u8]) -> Checked
    ensures { answer_of result ≡ q14 script.now }
{
    answer::each(
        Question::Fields,
        records::record_count(script),
        |i| fields_right(script, i),
    )
}

// Is record i an object's: of kinds 1 to 5 or 12?
fn is_object(script: &[u8], i: usize) -> bool
    requires { i < records script.now }
    ensures { result ≡ is_object (kind script.now i) }
{
    records::kind_at(script, i).is_some_and(|kind| kind.is_object())
}

// Are the named groups of record i in the table, and is ir ⊑ r in an object's? A number that no kind has names none.
#[tactic(auto, using(records::proofs::Table::past_table), unfolding(rules::specs::Script::ok15, rules::specs::Script::signatures))]
fn groups_right(groups: &[u8], script: &[u8], i: usize) -> bool
    requires { i < records script.now }
    ensures { result ≡ ok15 groups.now script.now i }
{
    let Some(kind) = records::kind_at(script, i) else {
        return true;
    };
    let named = kind.signature();
    let p = records::property(script, i);
    let n = lattice::row_count(groups);
    answer::below_if(named.r, usize::from(p.r.0), n)
        & answer::below_if(named.ir, usize::from(p.ir.0), n)
        & answer::below_if(named.c, usize::from(p.c.0), n)
        & answer::below_if(named.ic, usize::from(p.ic.0), n)
        & (!kind.is_object() | p.ir.within(groups, p.r))
}

/// Every named group in the table, and ir ⊑ r in an object's record? Question 15, `Groups`, of every record.
pub fn question_15(groups: &[u8], script: &[u8]) -> Checked
    ensures { answer_of result ≡ q15 groups.now script.now }
{
    answer::each(
        Question::Groups,
        records::record_count(script),
        |i| groups_right(groups, script, i),
    )
}

// Is ic ⊑ c, where record i is an object's?
#[tactic(auto, using(answer::proofs::Implications::not_or_implies), unfolding(rules::specs::Script::ok36_object))]
fn creators_right(groups: &[u8], script: &[u8], i: usize) -> bool
    requires { i < records script.now }
    ensures { result ≡ ok36_object groups.now script.now i }
{
    let p = records::property(script, i);
    !is_object(script, i) | p.ic.within(groups, p.c)
}

/// ic ⊑ c in an object's record? Question 36, `Creators`, of every record.
pub fn question_36(groups: &[u8], script: &[u8]) -> Checked
    ensures { answer_of result ≡ q36_objects groups.now script.now }
{
    answer::each(
        Question::Creators,
        records::record_count(script),
        |i| creators_right(groups, script, i),
    )
}

// Is n a type of the table?
fn exists(types: &[u8], n: usize) -> bool
    ensures { result ≡ nat_lt n (type_count types.now) }
{
    n < types::type_count(types)
}

// Is the kind of type record i 0? Past the table's end it is read as 0; where a table has whole types, a sum's sides
// are there.
fn reads_unit(types: &[u8], i: usize) -> bool
    requires { i < 65538 }
    ensures { result ≡ nat_eq (type_kind types.now i) 0 }
{
    types
        .get(TYPE_WIDTH * i)
        .is_none_or(|kind| *kind == types::Kind::Unit.number())
}

// Is n a type of the table, and a sum of two units?
fn is_sum_of_units(types: &[u8], n: usize) -> bool
    requires { n < 65536 }
    ensures { result ≡ (nat_lt n (type_count types.now) && sum_of_units types.now n) }
{
    types::is_of_kind(types, n, types::Kind::Sum)
        && (reads_unit(types, n + 1) && reads_unit(types, n + 2))
}

// Does the type that record i names exist, a sum for 4 and 5, a function for 11, a sum of two units for 14? A case
// that finds its own type names none.
#[tactic(auto, unfolding(rules::specs::Script::ok16, rules::specs::Script::signature_of, rules::specs::Script::signatures))]
fn type_right(types: &[u8], script: &[u8], i: usize) -> bool
    requires { i < records script.now }
    ensures { result ≡ ok16 types.now script.now i }
{
    let n = usize::from(records::number(script, i));
    match records::kind_at(script, i) {
        Some(Kind::Function) => exists(types, n),
        Some(Kind::FirstInjection | Kind::SecondInjection) => types::is_of_kind(
            types,
            n,
            types::Kind::Sum,
        ),
        Some(Kind::Case) => records::finds_own(script, i) || exists(types, n),
        Some(Kind::Recursion) => types::is_of_kind(types, n, types::Kind::Function),
        Some(Kind::Less) => is_sum_of_units(types, n),
        _ => true,
    }
}

/// Does a named type exist: a sum for an injection, a function for a recursion, a sum of two units for a comparison?
/// Question 16, `NamedTypes`, of every record. A case that finds its own type names none.
pub fn question_16(types: &[u8], script: &[u8]) -> Checked
    ensures { answer_of result ≡ q16 types.now script.now }
{
    answer::each(
        Question::NamedTypes,
        records::record_count(script),
        |i| type_right(types, script, i),
    )
}

/// Exactly one whole term? Question 17, `OneTerm`, refused where the first one ends, or at the record count where it
/// is cut short.
pub fn question_17(script: &[u8]) -> Checked
    ensures { answer_of result ≡ q17 script.now }
{
    let count = records::record_count(script);
    let end = records::term_end(script, 0);
    answer::ask(Question::OneTerm, end.unwrap_or(count), end == Some(count))
}

// Is record i no recursion?
#[tactic(auto, unfolding(rules::specs::Profile::ok39))]
fn no_recursion(script: &[u8], i: usize) -> bool
    requires { i < records script.now }
    ensures { result ≡ ok39 script.now i }
{
    records::kind_at(script, i) != Some(Kind::Recursion)
}

/// No recursion? Question 39, `Profile`, of every record: the profile of the scripts that always finish.
pub fn question_39(script: &[u8]) -> Checked
    ensures { answer_of result ≡ q39 script.now }
{
    answer::each(
        Question::Profile,
        records::record_count(script),
        |i| no_recursion(script, i),
    )
}
