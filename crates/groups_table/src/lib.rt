// The check of a groups table: a function for each of its questions, 2 to 7, and all of them in order.

#![tactic(auto)]

ghost use Rattle.std.specs.Prelude.{◌≡◌, ◌≤◌, ◌<◌};
ghost use Rattle.rules.specs.Limits.{group_limit};
ghost use Rattle.rules.specs.Groups.{rows, ok3, ok4, ok5, ok6, q2, q3, q4, q5, q6, q7};
ghost use Rattle.rules.specs.Calls.{groups_check};
ghost use Rattle.answer.specs.Said.{answer_of};
ghost use Rattle.groups_table.specs.Pairs.{pair5, pair6};

use answer::{Checked, Question};
use lattice::{GROUP_LIMIT, ROW_WIDTH};

/// Whole rows of 4 bytes, 1 to 32? Question 2, `GroupsLength`.
pub fn question_2(groups: &[u8]) -> Checked
    ensures { answer_of result ≡ q2 groups.now }
{
    answer::ask(
        Question::GroupsLength,
        0,
        answer::whole(groups.len(), ROW_WIDTH, GROUP_LIMIT),
    )
}

// Has row g no bit at or past the row count?
fn within_table(groups: &[u8], g: usize) -> bool
    requires { rows groups.now ≤ group_limit }
    ensures { result ≡ ok3 groups.now g }
{
    u64::from(lattice::row(groups, g)) >> lattice::row_count(groups) == 0
}

/// Has no row a bit at or past the row count? Question 3, `BitsInTable`, refused at the first row that has one.
pub fn question_3(groups: &[u8]) -> Checked
    requires { rows groups.now ≤ group_limit }
    ensures { answer_of result ≡ q3 groups.now }
{
    let n = lattice::row_count(groups);
    answer::each(Question::BitsInTable, n, |g| within_table(groups, g))
}

// Is g the lowest bit of row g?
fn lowest_is_own(groups: &[u8], g: usize) -> bool
    requires { g < group_limit }
    ensures { result ≡ ok4 groups.now g }
{
    lattice::row(groups, g).trailing_zeros() as usize == g
}

/// Is g the lowest bit of row g? Question 4, `LowestBit`, of every row.
pub fn question_4(groups: &[u8]) -> Checked
    requires { rows groups.now ≤ group_limit }
    ensures { answer_of result ≡ q4 groups.now }
{
    let n = lattice::row_count(groups);
    answer::each(Question::LowestBit, n, |g| lowest_is_own(groups, g))
}

// Is the row of `above` within row g, if g ⊑ `above`?
fn transitive_through(groups: &[u8], g: usize, above: usize) -> bool
    ensures { result ≡ pair5 groups.now g above }
{
    let whole = lattice::row(groups, g);
    if !lattice::bit(whole, above) {
        return true;
    }
    let part = lattice::row(groups, above);
    part & whole == part
}

// Question 5 of row g.
fn transitive(groups: &[u8], g: usize) -> bool
    ensures { result ≡ ok5 groups.now g }
{
    answer::all(GROUP_LIMIT, |above| transitive_through(groups, g, above))
}

/// Is row h within row g for every bit h of row g? Question 5, `Transitive`, of every row g.
pub fn question_5(groups: &[u8]) -> Checked
    ensures { answer_of result ≡ q5 groups.now }
{
    let n = lattice::row_count(groups);
    answer::each(Question::Transitive, n, |g| transitive(groups, g))
}

// Are the bits common to both rows exactly the row of the lowest of them?
fn has_join(groups: &[u8], g: usize, other: usize) -> bool
    ensures { result ≡ pair6 groups.now g other }
{
    let both = lattice::row(groups, g) & lattice::row(groups, other);
    both != 0 && lattice::row(groups, both.trailing_zeros() as usize) == both
}

// Question 6 of row g.
fn has_joins(groups: &[u8], g: usize) -> bool
    ensures { result ≡ ok6 groups.now g }
{
    let n = lattice::row_count(groups);
    answer::all(n, |other| has_join(groups, g, other))
}

/// For every row h, are the bits common to rows g and h exactly the row of the lowest of them? Question 6, `Joins`,
/// of every row g.
pub fn question_6(groups: &[u8]) -> Checked
    ensures { answer_of result ≡ q6 groups.now }
{
    let n = lattice::row_count(groups);
    answer::each(Question::Joins, n, |g| has_joins(groups, g))
}

/// Has row 0 all bits below the row count? Question 7, `LowestGroup`.
pub fn question_7(groups: &[u8]) -> Checked
    ensures { answer_of result ≡ q7 groups.now }
{
    let lowest = lattice::row(groups, 0);
    let all = answer::all(lattice::row_count(groups), |h| lattice::bit(lowest, h));
    answer::ask(Question::LowestGroup, 0, all)
}

/// The check of a groups table, of any bytes: questions 2 to 7, in order. The first refusal is passed on.
#[tactic(auto, using(answer::proofs::Passed::then_asked, answer::proofs::Passed::stopped), unfolding(rules::specs::Calls::groups_check))]
pub fn groups_check(groups: &[u8]) -> Checked
    ensures { answer_of result ≡ groups_check groups.now }
{
    let a2 = question_2(groups);
    let Ok(()) = a2 else {
        return a2;
    };
    let a3 = question_3(groups);
    let Ok(()) = a3 else {
        return a3;
    };
    let a4 = question_4(groups);
    let Ok(()) = a4 else {
        return a4;
    };
    let a5 = question_5(groups);
    let Ok(()) = a5 else {
        return a5;
    };
    let a6 = question_6(groups);
    let Ok(()) = a6 else {
        return a6;
    };
    question_7(groups)
}
