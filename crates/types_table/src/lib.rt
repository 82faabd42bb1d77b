// The check of a types table: a function for each of its questions, 8 to 12 and 36, and all of them in order; and the
// comparison of two of its types.

#![tactic(auto)]

ghost use Rattle.std.specs.Prelude.{◌≡◌, if◌then◌else◌, ◌&&◌, ◌+◌, ◌-◌, ◌≤◌, ◌<◌, nat_eq, nat_le, nat_lt};
ghost use Rattle.calculus.specs.Types.{type_limit};
ghost use Rattle.rules.specs.Answer.{◌⇒◌};
ghost use Rattle.rules.specs.Types.{type_count, type_kind, sides, ok9, q8_of, q8, q9, q10, q36_types, q11, q12};
ghost use Rattle.rules.specs.Comparison.{comparison_number};
ghost use Rattle.rules.specs.Calls.{types_check, compare_call};
ghost use Rattle.answer.specs.Said.{answer_of};
ghost use Rattle.types_table.specs.Answered.{said_comparison, comparison_answer, comparison_of};

use answer::{Checked, Question, Refusal};
use lattice::{Group, Property};
use subtyping::Related;
use types::{TYPE_LIMIT, TYPE_WIDTH};

/// The most records of a types table.
pub const TABLE_LIMIT: usize = 4096;

/// The bytes of the longest table.
pub const TABLE_LENGTH: usize = TABLE_LIMIT * TYPE_WIDTH;

/// How a type stands to another, in the order of the answers' numbers, 0 to 2.
#[derive(Clone, Copy, Debug, PartialEq, Eq)]
pub enum Comparison {
    /// It isn't at or below the other.
    Neither,
    /// It is below the other.
    Below,
    /// They are the same.
    Same,
}

impl Comparison {
    /// Its number, as an answer at the C surface has it.
    pub fn number(self) -> u8
        ensures { result ≡ comparison_number (said_comparison self) }
    {
        self as u8
    }
}

/// Whole records of `width` bytes, 1 to 4,096? Question 8, `TypesLength`. Records of an earlier form have another
/// width.
pub fn question_8_of(types: &[u8], width: usize) -> Checked
    requires { 0 < width }
    ensures { answer_of result ≡ q8_of width types.now }
{
    answer::ask(
        Question::TypesLength,
        0,
        answer::whole(types.len(), width, TABLE_LIMIT),
    )
}

/// Whole records of 6 bytes, 1 to 4,096? Question 8, `TypesLength`.
pub fn question_8(types: &[u8]) -> Checked
    ensures { answer_of result ≡ q8 types.now }
{
    question_8_of(types, TYPE_WIDTH)
}

// Are the groups of a property in the table, which has n?
fn in_table(n: usize, k: Property) -> bool
    ensures { result ≡ (nat_lt k.r.0 n && (nat_lt k.ir.0 n && (nat_lt k.c.0 n && nat_lt k.ic.0 n))) }
{
    k.r.is_among(n) & k.ir.is_among(n) & k.c.is_among(n) & k.ic.is_among(n)
}

// Has record i a kind that there is, a 0 in byte 3, and groups of the table, which has n?
#[tactic(auto, using(crate::proofs::Fields::named), unfolding(rules::specs::Types::ok9))]
fn well_formed(n: usize, types: &[u8], i: usize) -> bool
    requires { i < type_count types.now }
    ensures { result ≡ ok9 n types.now i }
{
    types::kind_at(types, i).is_some()
        & (types::zero_byte_at(types, i) == 0)
        & in_table(n, types::property_at(types, i))
}

/// A kind that there is, a 0 in byte 3, and groups of the table? Question 9, `TypeFields`, of every record.
pub fn question_9(groups: &[u8], types: &[u8]) -> Checked
    ensures { answer_of result ≡ q9 groups.now types.now }
{
    let n = lattice::row_count(groups);
    let count = types::type_count(types);
    answer::each(Question::TypeFields, count, |i| well_formed(n, types, i))
}

/// ir ⊑ r? Question 10, `TypeReaders`, of every record.
#[tactic(auto, unfolding(rules::specs::Types::ok10))]
pub fn question_10(groups: &[u8], types: &[u8]) -> Checked
    ensures { answer_of result ≡ q10 groups.now types.now }
{
    answer::each(Question::TypeReaders, types::type_count(types), |i| {
        let k = types::property_at(types, i);
        k.ir.within(groups, k.r)
    })
}

/// ic ⊑ c? Question 36, `Creators`, of every record. A pass of its own: a later record's question 10 comes before an
/// earlier one's 36.
#[tactic(auto, unfolding(rules::specs::Types::ok36_type))]
pub fn question_36(groups: &[u8], types: &[u8]) -> Checked
    ensures { answer_of result ≡ q36_types groups.now types.now }
{
    answer::each(Question::Creators, types::type_count(types), |i| {
        let k = types::property_at(types, i);
        k.ic.within(groups, k.c)
    })
}

// One pass over a types table: where the outermost type that it is in starts, and how many of that one's sides are
// still to come.
#[derive(Clone, Copy, Debug, Default, PartialEq, Eq)]
struct Pass {
    start: usize,
    pending: usize,
}

impl Pass {
    // What it is after record i. Where no side was to come, a new type starts there.
    fn after(self, types: &[u8], i: usize) -> Self
        requires there { i < type_count types.now }
        requires few { self.pending ≤ i + 1 }
        ensures start { result.start ≡ (if nat_eq self.pending 0 then i else self.start) }
        ensures pending { result.pending ≡ (self.pending - 1) + sides (type_kind types.now i) }
    {
        let start = if self.pending == 0 { i } else { self.start };
        let pending = types::pending_after(types, i, self.pending);
        Pass { start, pending }
    }

    // Has the type at most 63 records, if it ends at record `end`?
    fn is_short(self, end: usize) -> bool
        requires { self.start ≤ end }
        ensures { result ≡ (nat_eq self.pending 0 ⇒ nat_le (end - self.start) type_limit) }
    {
        self.pending != 0 || end - self.start <= TYPE_LIMIT
    }
}

/// Does the last type end with the table? Question 11, `WholeTypes`, refused at the first record of the type that
/// doesn't. One pass: an unfinished type would await the records past the end, at any depth.
pub fn question_11(types: &[u8]) -> Checked
    ensures { answer_of result ≡ q11 types.now }
{
    let mut pass = Pass::default();
    for i in 0..types::type_count(types) {
        pass = pass.after(types, i);
    }
    answer::ask(Question::WholeTypes, pass.start, pass.pending == 0)
}

/// Has every type at most 63 records? Question 12, `TypeLengths`, refused at the first record of a type that has more.
pub fn question_12(types: &[u8]) -> Checked
    ensures { answer_of result ≡ q12 types.now }
{
    let mut pass = Pass::default();
    for i in 0..types::type_count(types) {
        pass = pass.after(types, i);
        answer::ask(Question::TypeLengths, pass.start, pass.is_short(i + 1))?;
    }
    Ok(())
}

/// The check of both tables, of any bytes: questions 2 to 12 in order, with 36 directly after 10. The first refusal
/// is passed on.
#[tactic(auto, using(answer::proofs::Passed::then_asked, answer::proofs::Passed::stopped), unfolding(rules::specs::Calls::types_check))]
pub fn types_check(groups: &[u8], types: &[u8]) -> Checked
    ensures { answer_of result ≡ types_check groups.now types.now }
{
    let a7 = groups_table::groups_check(groups);
    let Ok(()) = a7 else {
        return a7;
    };
    let a8 = question_8(types);
    let Ok(()) = a8 else {
        return a8;
    };
    let a9 = question_9(groups, types);
    let Ok(()) = a9 else {
        return a9;
    };
    let a10 = question_10(groups, types);
    let Ok(()) = a10 else {
        return a10;
    };
    let a36 = question_36(groups, types);
    let Ok(()) = a36 else {
        return a36;
    };
    let a11 = question_11(types);
    let Ok(()) = a11 else {
        return a11;
    };
    question_12(types)
}

// What a walk found, as a comparison.
fn told(found: Option<Related>) -> Comparison
    ensures { result ≡ comparison_of found }
{
    match found {
        Some(related) if related.same => Comparison::Same,
        Some(_) => Comparison::Below,
        None => Comparison::Neither,
    }
}

/// How the type at record `first` stands to the type at record `second`. Refused where the tables fail their check
/// (questions 2 to 12 and 36), and by question 25, `Given`, where an index is past the table: place 0 for the first,
/// 1 for the second. The indexes are looked at as they come, before they are narrowed.
pub fn compare(groups: &[u8], types: &[u8], first: u64, second: u64) -> Result<Comparison, Refusal>
    ensures { comparison_answer result ≡ compare_call groups.now types.now first second }
{
    types_check(groups, types)?;
    let count = types::type_count(types) as u64;
    answer::ask(Question::Given, 0, first < count)?;
    answer::ask(Question::Given, 1, second < count)?;
    let lower = types::part_from(types, first as usize);
    let upper = types::part_from(types, second as usize);
    Ok(told(subtyping::at_or_below(groups, lower, upper)))
}
