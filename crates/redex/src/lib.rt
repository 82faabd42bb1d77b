// The search for the redex: is the term a value, where does it reduce, or what is it stuck at?

#![tactic(auto)]

ghost use Rattle.std.specs.Prelude.{◌≡◌, ◌&&◌, nat_eq, ℕ, ◌+◌, ◌<◌, IsTrue};
ghost use Rattle.calculus.specs.Security.{Security};
ghost use Rattle.calculus.specs.Types.{Ty};
ghost use Rattle.calculus.specs.Terms.{Term};
ghost use Rattle.rules.specs.Groups.{leq, properties_of};
ghost use Rattle.rules.specs.Types.{type_at};
ghost use Rattle.rules.specs.Script.{records, kind, r};
ghost use Rattle.records.specs.Kinds as kinds;
ghost use Rattle.records.specs.Numbers.{kind_number};
ghost use Rattle.records.specs.Place.{At, Here};
ghost use Rattle.redex.specs.Fates.{is_function, is_potential_redex, reading_fate, fate};
ghost use Rattle.redex.specs.Found.{Shallow, Finds, answer, is_destructor, takes_apart, ReckonAt, SomeReckonAt, PotentialRedex};

use lattice::Group;
use records::Kind;

/// What the search for the redex of a term reports. Places are records of the script.
#[derive(Clone, Copy, Debug, PartialEq, Eq)]
pub enum Found {
    /// The term is a value, and this is the record after it.
    Value(usize),
    /// The redex: its own record, and how many levels of the term are around it.
    Redex { place: usize, around: usize },
    /// No step moves the term: a reader may not read what it takes apart (end 2).
    Denied,
    /// No step moves the term: an object is of the wrong kind, or a variable is free (end 3).
    Stuck,
}

// Is this type a function? Asked again here, and of any index, so that no step has to keep the answer to the question
// whether records name types of the wanted kinds (16).
fn unrolls(types: &[u8], index: usize) -> bool
    ensures { result ≡ is_function (type_at types.now index) }
{
    types::is_of_kind(types, index, types::Kind::Function)
}

// Does a destructor of this kind take apart a value of that kind?
fn takes_apart(destructor: Kind, value: Kind) -> bool
    ensures { result ≡ takes_apart (kind_number destructor) (kind_number value) }
{
    match destructor {
        Kind::Application => value == Kind::Function,
        Kind::FirstProjection | Kind::SecondProjection => value == Kind::Pair,
        Kind::Case => value.is_injection(),
        _ => false,
    }
}

// May the node at record `at` read the value at record `operand`?
fn may_read(groups: &[u8], script: &[u8], at: usize, operand: usize) -> bool
    requires node { at < records script.now }
    requires operand { operand < records script.now }
    ensures { result ≡ leq groups.now (r script.now operand) (r script.now at) }
{
    let read = records::reader(script, operand);
    let reader = records::reader(script, at);
    read.at_or_below(groups, reader)
}

// The answer of the node at record `at`, whose evaluated operands are values, of the wanted kinds or not, and which may
// read them or not: the kinds come before the reader.
fn verdict(fits: bool, may: bool, at: usize, depth: usize) -> Found
    ensures { result ≡ answer (reading_fate fits may) at depth }
{
    if !fits {
        Found::Stuck
    } else if may {
        Found::Redex {
            place: at,
            around: depth,
        }
    } else {
        Found::Denied
    }
}

// The answer of the destructor at record `at`, whose evaluated operands are values.
fn reading(groups: &[u8], script: &[u8], at: usize, depth: usize) -> Found
    requires here { Here script.now at }
    requires destructor { IsTrue (is_destructor (kind script.now at)) }
    ensures { (tab : ℕ → Ty) (e : Term) → At script.now at e
        → result ≡ answer (fate (properties_of groups.now) tab e) at depth }
{
    let operand = at + 1;
    let destructor = records::kind_of(script, at);
    let value = records::kind_of(script, operand);
    let fits = takes_apart(destructor, value);
    let may = may_read(groups, script, at, operand);
    verdict(fits, may, at, depth)
}

// Are two values of these kinds literals?
fn both_literals(left: Kind, right: Kind) -> bool
    ensures { result ≡ (nat_eq (kind_number left) kinds.literal && nat_eq (kind_number right) kinds.literal) }
{
    left == Kind::Literal && right == Kind::Literal
}

// May the node at record `at` read the value at the next record and that at record `second`?
fn may_read_both(groups: &[u8], script: &[u8], at: usize, second: usize) -> bool
    requires first { at + 1 < records script.now }
    requires second { second < records script.now }
    ensures { result ≡ (leq groups.now (r script.now (at + 1)) (r script.now at)
        && leq groups.now (r script.now second) (r script.now at)) }
{
    may_read(groups, script, at, at + 1) && may_read(groups, script, at, second)
}

// The answer of the sum or of the comparison at record `at`, whose two operands are values, the second at record
// `second`.
fn reckoning(groups: &[u8], script: &[u8], at: usize, second: usize, depth: usize) -> Found
    requires { SomeReckonAt script.now at second }
    ensures { (tab : ℕ → Ty) (e : Term) → ReckonAt script.now at second e
        → result ≡ answer (fate (properties_of groups.now) tab e) at depth }
{
    let left = records::kind_of(script, at + 1);
    let right = records::kind_of(script, second);
    let fits = both_literals(left, right);
    let may = may_read_both(groups, script, at, second);
    verdict(fits, may, at, depth)
}

// The answer of the recursion at record `at`.
fn unrolling(types: &[u8], script: &[u8], at: usize, depth: usize) -> Found
    requires { at < records script.now }
    ensures { (S : Security) (e : Term) → At script.now at e → kind script.now at ≡ kinds.recursion
        → result ≡ answer (fate S (type_at types.now) e) at depth }
{
    let named = usize::from(records::number(script, at));
    if !unrolls(types, named) {
        return Found::Stuck;
    }
    Found::Redex {
        place: at,
        around: depth,
    }
}

/// What becomes of the node at record `at`, `depth` levels down, whose turn it is: its evaluated operands are values.
/// It is the redex, or its group may not read an operand, or an operand is of the wrong kind; the kinds come before the
/// reader.
pub fn turn(groups: &[u8], types: &[u8], script: &[u8], at: usize, depth: usize) -> Found
    requires { PotentialRedex script.now at }
    ensures { (e : Term) → At script.now at e → IsTrue (is_potential_redex e)
        → result ≡ answer (fate (properties_of groups.now) (type_at types.now) e) at depth }
{
    match records::kind_of(script, at) {
        Kind::Protect => Found::Redex {
            place: at,
            around: depth,
        },
        Kind::Recursion => unrolling(types, script, at, depth),
        Kind::Sum | Kind::Less => {
            let second = records::end_of(script, at + 1);
            reckoning(groups, script, at, second, depth)
        }
        Kind::Application | Kind::FirstProjection | Kind::SecondProjection | Kind::Case => {
            reading(groups, script, at, depth)
        }
        _ => Found::Stuck,
    }
}

/// The search for the redex of the term at record `at`, which stands `depth` levels down.
///
/// It is one pass from left to right. A value tells its end, so none is passed over twice, and no call is deeper than
/// the term.
pub fn find(groups: &[u8], types: &[u8], script: &[u8], at: usize, depth: usize) -> Found
    requires { Shallow script.now at depth }
    ensures { (e : Term) → At script.now at e
        → Finds (properties_of groups.now) (type_at types.now) at depth e result }
{
    let kind = records::kind_of(script, at);
    match kind {
        Kind::Unit | Kind::Literal => return Found::Value(at + 1),
        Kind::Function => return Found::Value(records::end_of(script, at)),
        Kind::Variable | Kind::Recursion => return turn(groups, types, script, at, depth),
        _ => {}
    }
    let inside = depth + records::weight(script, at);
    let first = find(groups, types, script, at + 1, inside);
    let Found::Value(next) = first else {
        return first;
    };
    match kind {
        Kind::FirstInjection | Kind::SecondInjection => return first,
        Kind::Protect | Kind::FirstProjection | Kind::SecondProjection | Kind::Case => {
            return turn(groups, types, script, at, depth);
        }
        _ => {}
    }
    let second = find(groups, types, script, next, depth + 1);
    let Found::Value(end) = second else {
        return second;
    };
    match kind {
        Kind::Pair => Found::Value(end),
        _ => turn(groups, types, script, at, depth),
    }
}
