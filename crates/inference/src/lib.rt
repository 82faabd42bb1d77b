// The typing rules in the lent work buffer, named by where they stand in the traversal: what is asked and written
// before a node's operands, after one, between two, after two and after each branch of a case. Where a type is found it
// is left in front of the buffer, and the answer is its record count.

#![tactic(auto)]

ghost use Rattle.std.specs.Prelude.{◌≡◌, List, ◌∷◌, ℕ, ◌+◌, ◌*◌, ◌≤◌, length, drop, get_or};
ghost use Rattle.calculus.specs.Types.{sum, Ty, node, top, raise_t, size_t};
ghost use Rattle.calculus.specs.Subtyping.{subtype, below};
ghost use Rattle.calculus.specs.Common.{nearest_type};
ghost use Rattle.calculus.specs.Terms.{plus, less, Term};
ghost use Rattle.rules.specs.Answer.{accepted, ◌>>=◌ as bind, ask};
ghost use Rattle.answer.specs.Said.{answer_of};
ghost use Rattle.rules.specs.Limits.{type_width, script_width, answer_length};
ghost use Rattle.rules.specs.Groups.{properties_of};
ghost use Rattle.rules.specs.Types.{type_record, no_type, type_at, encode_type};
ghost use Rattle.rules.specs.Script.{number, encode};
ghost use Rattle.rules.specs.Typing.{left, right, q22_of_branch, found_or};
ghost use Rattle.memory.specs.Splice.{splice};
ghost use Rattle.lattice.specs.Said.{said_property, said_influence};
ghost use Rattle.types.specs.Held.{Held, Starts, TwoSided};
ghost use Rattle.types.specs.Kinds.{type_kind_number};
ghost use Rattle.types.specs.declared.Kind.TheVariants.{Sum};
ghost use Rattle.inference.specs.Sides.{said_side, named_side};
ghost use Rattle.inference.specs.Memory.{high, Slot, Sized, HoldsContext, Meets, Gives, CheckerInput, Enters, SlotType, SlotSided};
ghost use Rattle.inference.specs.Memory.{Beside, InScope, TypedFront, TwoTypesHeld, Entered};
ghost use Rattle.inference.specs.Stages.{leaf_type, may_recur, before_first, first_context, kept_front, function_type};
ghost use Rattle.inference.specs.Stages.{pair_type, injection_type, may_read, after_one, between, second_context};
ghost use Rattle.inference.specs.Stages.{after_two, LeafNode, OneOperand, Aside, AfterFirst, TwoOperands, type_side, reads, after_22};
ghost use Rattle.inference.specs.Stages.{projection_type, operands_property, operation_type, kept_branch, result_type, case_type};
ghost use Rattle.inference.specs.Stages.{CaseNode, FirstBranchTyped, BranchesTyped};

use answer::{Checked, Question, Refusal};
use common_types::Direction;
use lattice::{Group, Influence, Property, Reader};
use records::Kind;
use types::{TYPE_LIMIT, TYPE_WIDTH};

// A side of a type, as an injection or a projection names it.
#[derive(Clone, Copy, Debug, PartialEq, Eq)]
enum Side {
    First,
    Second,
}

impl Side {
    // The one that an injection or a projection of this kind names.
    fn of(kind: Kind) -> Self
        ensures { said_side result ≡ named_side kind }
    {
        match kind {
            Kind::FirstInjection | Kind::FirstProjection => Side::First,
            _ => Side::Second,
        }
    }
}

/// The bytes of a slot, which holds any type. The work buffer has one for each level that a script may have (question
/// 1).
pub const SLOT: usize = TYPE_LIMIT * TYPE_WIDTH;

// The second of two found types starts behind any first, at this record of the work buffer.
const SECOND_RECORD: usize = TYPE_LIMIT;

/// The byte of the work buffer from which the second of two found types lies: behind any first.
pub const SECOND_PART: usize = SECOND_RECORD * TYPE_WIDTH;

// The number field of a node's own record, the first of its part.
fn index(part: &[u8]) -> usize
    requires { script_width ≤ length part.now }
    ensures { result ≡ number part.now 0 }
{
    usize::from(records::number(part, 0))
}

// A type record, to the front of the work buffer.
fn put(work: &mut [u8], kind: types::Kind, property: Property)
    requires { type_width ≤ length work.old }
    ensures { work.new ≡ splice 0 (type_record (type_kind_number kind) (said_property property)) work.old }
{
    work[0] = kind.number();
    work[types::ZERO] = 0;
    types::put_property(work, 0, property);
}

// A type without sides, to the front of the work buffer: one record.
fn one_record(kind: types::Kind, property: Property, work: &mut [u8]) -> Result<usize, Refusal>
    requires { answer_length ≤ length work.old }
    ensures { (t : Ty) → encode_type t ≡ type_record (type_kind_number kind) (said_property property)
        → Gives (accepted t) work.old result work.new }
{
    put(work, kind, property);
    Ok(1)
}

// The part of the types table that starts with the type that a node's own record names.
fn named<'a>(types: &'a [u8], part: &[u8]) -> &'a [u8]
    requires node { script_width ≤ length part.now }
    requires in_table { type_width * number part.now 0 ≤ length types.now }
    ensures { result.now ≡ drop (type_width * number part.now 0) types.now }
{
    types::part_from(types, index(part))
}

// The type that t starts with to the work buffer, from byte `at` on: its record count.
fn copy_type(t: &[u8], work: &mut [u8], at: usize) -> usize
    requires slot { SlotType t.now }
    requires room { at + answer_length ≤ length work.old }
    ensures count { (u : Ty) → Held t.now u → result ≡ size_t u }
    ensures work { (u : Ty) → Held t.now u → work.new ≡ splice at (encode_type u) work.old }
{
    let n = types::type_records(t);
    memory::put(&t[..TYPE_WIDTH * n], work, at);
    n
}

// The type that byte `from` of the work buffer starts, moved down to byte `to`: its record count.
fn move_type(work: &mut [u8], from: usize, to: usize) -> usize
    requires starts { Starts (drop from work.old) }
    requires down { to ≤ from }
    ensures count { (t : Ty) → Held (drop from work.old) t → result ≡ size_t t }
    ensures work { (t : Ty) → Held (drop from work.old) t → work.new ≡ splice to (encode_type t) work.old }
{
    let n = types::type_records(&work[from..]);
    memory::shift(work, from, to, TYPE_WIDTH * n);
    n
}

// The byte at which a side of the type in front of s starts: past its record, or past its left side too.
fn side_at(s: &[u8], side: Side) -> usize
    requires { TwoSided s.now }
    ensures { (t : Ty) → Held s.now t → Held (drop result s.now) (type_side (said_side side) t) }
{
    match side {
        Side::First => TYPE_WIDTH,
        Side::Second => TYPE_WIDTH + TYPE_WIDTH * types::type_records(types::left_side(s)),
    }
}

// The part of s that starts with a side of the type in front.
fn side_of(s: &[u8], side: Side) -> &[u8]
    requires { TwoSided s.now }
    ensures { (t : Ty) → Held s.now t → Held result.now (type_side (said_side side) t) }
{
    let from = side_at(s, side);
    &s[from..]
}

// Questions 20 and 21: the type in front is of this kind, and r may read the object.
fn may_read(groups: &[u8], kind: types::Kind, r: Reader, place: usize, work: &[u8]) -> Checked
    requires { Starts work.now }
    ensures { (t : Ty) → Held work.now t
        → answer_of result ≡ may_read (properties_of groups.now) place kind t r.0 }
{
    let of_kind = types::kind_of(work) == kind;
    let own = types::reader(work);
    let readable = own.at_or_below(groups, r);
    answer::ask(Question::Former, place, of_kind)?;
    answer::ask(Question::Reader, place, readable)
}

// What reading the object in front as r gives: a side of its type, raised by what the reading leaves.
fn read_side(groups: &[u8], r: Reader, side: Side, work: &mut [u8]) -> Result<usize, Refusal>
    requires sided { TwoSided work.old }
    requires room { answer_length ≤ length work.old }
    ensures { (t : Ty) → Slot work.old t
        → Gives (accepted (reads (properties_of groups.now) t r.0 (type_side (said_side side) t)))
        work.old result work.new }
{
    let by = types::property(work).influence(groups, r);
    let from = side_at(work, side);
    let n = move_type(work, from, 0);
    types::raise(groups, work, by);
    Ok(n)
}

// A variable: the type in its slot.
fn variable(i: usize, binders: usize, work: &mut [u8]) -> Result<usize, Refusal>
    requires { InScope i binders work.old }
    ensures { (Γ : List Ty) → length Γ ≡ binders → HoldsContext Γ (high binders work.old)
        → Meets (accepted (get_or Γ i no_type)) binders work.old result work.new }
{
    let at = work.len() - SLOT * (binders - i);
    Ok(move_type(work, at, 0))
}

/// The type of a node without operands: a variable's is in its slot, a unit's and a literal's are one record.
///
/// `part` is the node's part of the script, under `binders` binders, whose types are in slots at the end of `work`. The
/// type is left in front of `work`, and the answer is its record count.
#[tactic(auto, using(crate::proofs::Shapes::long))]
pub fn leaf(part: &[u8], binders: usize, work: &mut [u8]) -> Result<usize, Refusal>
    requires { LeafNode part.now binders work.old }
    ensures { (v : LeafNode part.now binders work.old)
        → Meets (leaf_type v.ctx v.tree) binders work.old result work.new }
{
    match records::kind_of(part, 0) {
        Kind::Variable => variable(index(part), binders, work),
        Kind::Literal => one_record(types::Kind::Number, records::property(part, 0), work),
        _ => one_record(types::Kind::Unit, records::property(part, 0), work),
    }
}

// A binder of the type that t starts with, which goes to the next slot.
fn bind(t: &[u8], binders: usize, work: &mut [u8])
    requires slot { SlotType t.now }
    requires room { answer_length * (binders + 1) ≤ length work.old }
    ensures { (Γ : List Ty) (u : Ty) → Slot t.now u → length Γ ≡ binders
        → HoldsContext Γ (high binders work.old) → Entered (u ∷ Γ) binders work.old work.new }
{
    let at = work.len() - SLOT * (binders + 1);
    copy_type(t, work, at);
}

// Question 23 of the function type that t starts with: may its result be read through it, called as this group?
fn absorbs(groups: &[u8], t: &[u8], caller: Reader) -> bool
    requires { TwoSided t.now }
    ensures { (s : Ty) → Held t.now s
        → result ≡ (properties_of groups.now).absorbs (top s) caller.0 (top (right s)) }
{
    let own = types::property(t);
    let result = types::property(side_of(t, Side::Second));
    result.absorbed_by(groups, own, caller)
}

// Questions 21 and 23 of a recursion of the type that t starts with: may its group call it, and may its result be read
// through it?
fn may_recur(groups: &[u8], t: &[u8], caller: Reader, place: usize) -> Checked
    requires { TwoSided t.now }
    ensures { (u : Ty) → Held t.now u
        → answer_of result ≡ may_recur (properties_of groups.now) place u caller.0 }
{
    let called = types::reader(t).at_or_below(groups, caller);
    let absorbed = absorbs(groups, t, caller);
    answer::ask(Question::Reader, place, called)?;
    answer::ask(Question::Recursion, place, absorbed)
}

/// What is asked and written before the operands of the node at record `place`, whose part of the script `part` is.
///
/// Refuses at `place` a recursion that its group may not call (21), or whose result may not be read through it (23).
/// The type of the binder of a function or a recursion goes to the slot of `work` that is next to those of `binders`
/// binders.
#[tactic(auto, using(crate::proofs::Shapes::long))]
pub fn before_operands(
    groups: &[u8],
    types: &[u8],
    part: &[u8],
    place: usize,
    binders: usize,
    work: &mut [u8],
) -> Checked
    requires { CheckerInput types.now part.now place binders work.old }
    ensures { (v : CheckerInput types.now part.now place binders work.old)
        → Enters (before_first (properties_of groups.now) (type_at types.now) place v.tree)
        (first_context (type_at types.now) v.ctx v.tree) binders work.old result work.new }
{
    match records::kind_of(part, 0) {
        Kind::Function => {
            bind(named(types, part), binders, work);
            Ok(())
        }
        Kind::Recursion => {
            let t = named(types, part);
            let asked = may_recur(groups, t, records::reader(part, 0), place);
            bind(t, binders, work);
            asked
        }
        _ => Ok(()),
    }
}

/// How many bytes of the front of the work buffer are not lent to the first operand of the node whose part of the
/// script `part` is: room for an injection's record.
pub fn kept_front(part: &[u8]) -> usize
    requires { script_width ≤ length part.now }
    ensures { (e : Term) → part.now ≡ encode e → result ≡ kept_front e }
{
    match records::kind_at(part, 0) {
        Some(kind) if kind.is_injection() => TYPE_WIDTH,
        _ => 0,
    }
}

// A function: the body's type is in front; the parameter's, which t starts with, goes before it, and the record before
// both. Is the whole type within the limit of records (24)?
fn function(
    t: &[u8],
    property: Property,
    place: usize,
    work: &mut [u8],
    n: usize,
) -> Result<usize, Refusal>
    requires parameter { SlotType t.now }
    requires body { TypedFront work.old n }
    requires room { answer_length ≤ length work.old }
    ensures { (u v : Ty) → Slot t.now u → Sized work.old n v
        → Gives (function_type place (said_property property) u v) work.old result work.new }
{
    let m = types::type_records(t);
    let count = m + n + 1;
    answer::ask(Question::FoundLength, place, count <= TYPE_LIMIT)?;
    let at = TYPE_WIDTH + TYPE_WIDTH * m;
    memory::shift(work, 0, at, TYPE_WIDTH * n);
    memory::put(&t[..TYPE_WIDTH * m], work, TYPE_WIDTH);
    put(work, types::Kind::Function, property);
    Ok(count)
}

// The sum type that t starts with to the front of the work buffer, with another property: its record count.
fn named_sum(t: &[u8], property: Property, work: &mut [u8]) -> Result<usize, Refusal>
    requires sum { SlotSided t.now }
    requires room { answer_length ≤ length work.old }
    ensures { (u : Ty) → Slot t.now u
        → Gives (accepted (node sum (said_property property) (left u) (right u))) work.old result work.new }
{
    let n = copy_type(t, work, 0);
    put(work, types::Kind::Sum, property);
    Ok(n)
}

// An injection of the sum type that t starts with: the operand's type is behind the room of its record. Is it at or
// below the side of the sum (22)? The sides are those of t.
fn inject(
    groups: &[u8],
    t: &[u8],
    side: Side,
    property: Property,
    place: usize,
    work: &mut [u8],
) -> Result<usize, Refusal>
    requires sum { SlotSided t.now }
    requires operand { Starts (drop type_width work.old) }
    requires room { answer_length ≤ length work.old }
    ensures { (u v : Ty) → Slot t.now u → Held (drop type_width work.old) v
        → Gives (injection_type (properties_of groups.now) place (said_property property)
        u (type_side (said_side side) u) v) work.old result work.new }
{
    let fits = subtyping::is_subtype(groups, &work[TYPE_WIDTH..], side_of(t, side));
    answer::ask(Question::Wanted, place, fits)?;
    named_sum(t, property, work)
}

// A projection of the type in front: questions 20 and 21, and the side.
fn project(
    groups: &[u8],
    side: Side,
    r: Reader,
    place: usize,
    work: &mut [u8],
) -> Result<usize, Refusal>
    requires starts { Starts work.old }
    requires room { answer_length ≤ length work.old }
    ensures { (t : Ty) → Slot work.old t
        → Gives (projection_type (properties_of groups.now) place r.0 (said_side side) t) work.old result work.new }
{
    may_read(groups, types::Kind::Pair, r, place, work)?;
    read_side(groups, r, side, work)
}

// A protect: the type in front, raised.
fn protect(groups: &[u8], by: Influence, work: &mut [u8], n: usize) -> Result<usize, Refusal>
    requires { TypedFront work.old n }
    ensures { (t : Ty) → Sized work.old n t
        → Gives (accepted (raise_t (properties_of groups.now) t (said_influence by))) work.old result work.new }
{
    types::raise(groups, work, by);
    Ok(n)
}

// Is the type in front at or below the one that t starts with (22)? That one is then the node's: a recursion's, or that
// of a case that names its type.
fn adopt(groups: &[u8], t: &[u8], place: usize, work: &mut [u8]) -> Result<usize, Refusal>
    requires wanted { SlotType t.now }
    requires starts { Starts work.old }
    requires room { answer_length ≤ length work.old }
    ensures { (v u : Ty) → Held work.old v → Slot t.now u
        → Gives (after_22 (properties_of groups.now) place v u u) work.old result work.new }
{
    answer::ask(
        Question::Wanted,
        place,
        subtyping::is_subtype(groups, work, t),
    )?;
    Ok(copy_type(t, work, 0))
}

/// The type of a node of one operand, from its operand's type of `count` records, which lies in front of `work`, behind
/// the bytes that `kept_front` tells. It is left in front of `work`, and the answer is its record count.
///
/// Refuses at `place`, the node's record, a projection of what is no pair (20) or may not be read (21), an operand's
/// type that isn't at or below the one that an injection or a recursion wants (22), and a function's type of too many
/// records (24).
#[tactic(auto, using(crate::proofs::Shapes::long))]
pub fn after_one(
    groups: &[u8],
    types: &[u8],
    part: &[u8],
    place: usize,
    work: &mut [u8],
    count: usize,
) -> Result<usize, Refusal>
    requires { OneOperand types.now part.now work.old count }
    ensures { (v : OneOperand types.now part.now work.old count)
        → Gives (after_one (properties_of groups.now) (type_at types.now) place v.tree v.type)
        work.old result work.new }
{
    let kind = records::kind_of(part, 0);
    match kind {
        Kind::Function => function(
            named(types, part),
            records::property(part, 0),
            place,
            work,
            count,
        ),
        Kind::FirstInjection | Kind::SecondInjection => {
            let t = named(types, part);
            inject(
                groups,
                t,
                Side::of(kind),
                records::property(part, 0),
                place,
                work,
            )
        }
        Kind::FirstProjection | Kind::SecondProjection => {
            project(
                groups,
                Side::of(kind),
                records::reader(part, 0),
                place,
                work,
            )
        }
        Kind::Protect => protect(groups, records::influence(part, 0), work, count),
        _ => adopt(groups, named(types, part), place, work),
    }
}

// A case's tested type: questions 20 and 21, and the two sides to the next slot, of which the first is the binder's
// type.
fn test(
    groups: &[u8],
    r: Reader,
    place: usize,
    binders: usize,
    work: &mut [u8],
    n: usize,
) -> Checked
    requires tested { TypedFront work.old n }
    requires room { answer_length * (binders + 2) ≤ length work.old }
    ensures enters { (Γ : List Ty) (t : Ty) → Sized work.old n t → length Γ ≡ binders
        → HoldsContext Γ (high binders work.old)
        → Enters (may_read (properties_of groups.now) place Sum t r.0)
        (left t ∷ Γ) binders work.old result work.new }
    ensures kept { (Γ : List Ty) (t : Ty) → Sized work.old n t → length Γ ≡ binders
        → HoldsContext Γ (high binders work.old)
        → may_read (properties_of groups.now) place Sum t r.0 ≡ accepted tt → Beside t binders work.new }
{
    let asked = may_read(groups, types::Kind::Sum, r, place, work);
    let Ok(()) = asked else {
        return asked;
    };
    let at = work.len() - SLOT * (binders + 1);
    memory::shift(work, TYPE_WIDTH, at, TYPE_WIDTH * (n - 1));
    Ok(())
}

/// What is asked of the first operand's type, of `count` records in front of `work`, before the second operand.
///
/// Refuses at `place`, the node's record, a type that isn't of the kind that an application, a case, a sum or a
/// comparison takes apart (20), or that the node's group may not read (21). The type stays in front; of a case its two
/// sides go, one after the other, to the slot that is next to those of `binders` binders.
#[tactic(auto, using(crate::proofs::Shapes::long))]
pub fn between(
    groups: &[u8],
    part: &[u8],
    place: usize,
    binders: usize,
    work: &mut [u8],
    count: usize,
) -> Checked
    requires { AfterFirst part.now binders work.old count }
    ensures enters { (v : AfterFirst part.now binders work.old count)
        → Enters (between (properties_of groups.now) place v.tree v.type)
        (second_context v.ctx v.tree v.type) binders work.old result work.new }
    ensures kept { (v : AfterFirst part.now binders work.old count)
        → between (properties_of groups.now) place v.tree v.type ≡ accepted tt
        → Aside v.tree v.type binders work.new count }
{
    match records::kind_of(part, 0) {
        Kind::Pair => Ok(()),
        Kind::Application => {
            may_read(
                groups,
                types::Kind::Function,
                records::reader(part, 0),
                place,
                work,
            )
        }
        Kind::Sum | Kind::Less => {
            may_read(
                groups,
                types::Kind::Number,
                records::reader(part, 0),
                place,
                work,
            )
        }
        _ => test(
            groups,
            records::reader(part, 0),
            place,
            binders,
            work,
            count,
        ),
    }
}

// A pair: its first type is in front, the second from the next slot's length on. Is the whole type within the limit of
// records (24)?
fn pair(
    property: Property,
    place: usize,
    work: &mut [u8],
    n: usize,
    m: usize,
) -> Result<usize, Refusal>
    requires first { TypedFront work.old n }
    requires second { TypedFront (drop answer_length work.old) m }
    requires room { answer_length * 2 ≤ length work.old }
    ensures { (s t : Ty) → Sized work.old n s → Sized (drop answer_length work.old) m t
        → Gives (pair_type place (said_property property) s t) work.old result work.new }
{
    let count = n + m + 1;
    answer::ask(Question::FoundLength, place, count <= TYPE_LIMIT)?;
    memory::shift(work, 0, TYPE_WIDTH, TYPE_WIDTH * n);
    let at = TYPE_WIDTH + TYPE_WIDTH * n;
    memory::shift(work, SECOND_PART, at, TYPE_WIDTH * m);
    put(work, types::Kind::Pair, property);
    Ok(count)
}

// Is an application's argument's type, from the next slot's length on, at or below the parameter's, in front (22)?
fn argument_fits(groups: &[u8], work: &[u8]) -> bool
    requires function { TwoSided work.now }
    requires argument { Starts (drop answer_length work.now) }
    requires room { answer_length ≤ length work.now }
    ensures { (s t : Ty) → Held work.now s → Held (drop answer_length work.now) t
        → result ≡ subtype (properties_of groups.now) below t (left s) }
{
    subtyping::is_subtype(groups, &work[SECOND_PART..], side_of(work, Side::First))
}

// An application: the function's type is in front, the argument's from the next slot's length on. The argument is asked
// (22), and the result's type is read.
fn apply(groups: &[u8], r: Reader, place: usize, work: &mut [u8]) -> Result<usize, Refusal>
    requires function { TwoSided work.old }
    requires argument { Starts (drop answer_length work.old) }
    requires room { answer_length * 2 ≤ length work.old }
    ensures { (s t : Ty) → Slot work.old s → Held (drop answer_length work.old) t
        → Gives (after_22 (properties_of groups.now) place t (left s)
        (reads (properties_of groups.now) s r.0 (right s))) work.old result work.new }
{
    answer::ask(Question::Wanted, place, argument_fits(groups, work))?;
    read_side(groups, r, Side::Second, work)
}

// The property of what r reckons of two numbers: the left one's type is in front, the right one's from the next slot's
// length on, which questions 20 and 21 are put to.
fn reckoned(groups: &[u8], r: Reader, place: usize, work: &[u8]) -> Result<Property, Refusal>
    requires left { Starts work.now }
    requires right { Starts (drop answer_length work.now) }
    requires room { answer_length ≤ length work.now }
    ensures { (s t : Ty) → Held work.now s → Held (drop answer_length work.now) t
        → bind (answer_of result) (λ k. accepted (said_property k))
        ≡ operands_property (properties_of groups.now) place r.0 s t }
{
    let second = &work[SECOND_PART..];
    may_read(groups, types::Kind::Number, r, place, second)?;
    let left = types::property(work);
    let right = types::property(second);
    Ok(left.reckoned_with(groups, right, r))
}

// A sum of two: a number.
fn total(groups: &[u8], r: Reader, place: usize, work: &mut [u8]) -> Result<usize, Refusal>
    requires left { Starts work.old }
    requires right { Starts (drop answer_length work.old) }
    requires room { answer_length ≤ length work.old }
    ensures { (tab : ℕ → Ty) (s t : Ty) → Held work.old s → Held (drop answer_length work.old) t
        → Gives (operation_type (properties_of groups.now) tab place plus r.0 s t) work.old result work.new }
{
    let property = reckoned(groups, r, place, work)?;
    one_record(types::Kind::Number, property, work)
}

// A less than: the sum type that `flag` starts with, whose own groups aren't read.
fn comparison(
    groups: &[u8],
    flag: &[u8],
    r: Reader,
    place: usize,
    work: &mut [u8],
) -> Result<usize, Refusal>
    requires flag { SlotSided flag.now }
    requires left { Starts work.old }
    requires right { Starts (drop answer_length work.old) }
    requires room { answer_length ≤ length work.old }
    ensures { (tab : ℕ → Ty) (i : ℕ) (s t : Ty) → Slot flag.now (tab i) → Held work.old s
        → Held (drop answer_length work.old) t
        → Gives (operation_type (properties_of groups.now) tab place (less i) r.0 s t) work.old result work.new }
{
    let property = reckoned(groups, r, place, work)?;
    named_sum(flag, property, work)
}

/// The type of a node of two operands, from theirs: of `first` records in front of `work`, and of `second` records from
/// `SECOND_PART` on. It is left in front of `work`, and the answer is its record count.
///
/// Refuses at `place`, the node's record, a right operand of a sum or a comparison that is no number (20) or may not be
/// read (21), an argument's type that isn't at or below the parameter's (22), and a pair's type of too many records
/// (24).
#[tactic(auto, using(crate::proofs::Shapes::long))]
pub fn after_two(
    groups: &[u8],
    types: &[u8],
    part: &[u8],
    place: usize,
    work: &mut [u8],
    first: usize,
    second: usize,
) -> Result<usize, Refusal>
    requires { TwoOperands groups.now types.now part.now place work.old first second }
    ensures { (v : TwoOperands groups.now types.now part.now place work.old first second)
        → Gives (after_two (properties_of groups.now) (type_at types.now) place v.tree v.first v.second)
        work.old result work.new }
{
    match records::kind_of(part, 0) {
        Kind::Pair => pair(records::property(part, 0), place, work, first, second),
        Kind::Application => apply(groups, records::reader(part, 0), place, work),
        Kind::Sum => total(groups, records::reader(part, 0), place, work),
        _ => comparison(
            groups,
            named(types, part),
            records::reader(part, 0),
            place,
            work,
        ),
    }
}

// Is the type of a case's first branch, which is in front, at or below the case's (22)? Where the case finds its own,
// any will do.
fn branch_fits(groups: &[u8], types: &[u8], part: &[u8], work: &[u8]) -> bool
    requires node { CaseNode types.now part.now }
    requires starts { Starts work.now }
    ensures { (t : Ty) (place : ℕ) → Held work.now t
        → ask 22 place result
        ≡ q22_of_branch (properties_of groups.now) place (type_at types.now) (number part.now 0) t }
{
    records::finds_own(part, 0) || subtyping::is_subtype(groups, work, named(types, part))
}

/// What is asked of the type of a case's first branch, which is in front of `work`, before the second branch.
///
/// Refuses at `place`, the case's record, a type that isn't at or below the one that the case names (22). The branch's
/// type stays in front, and the right side of the tested type goes to the start of the slot next to those of `binders`
/// binders.
pub fn after_first_branch(
    groups: &[u8],
    types: &[u8],
    part: &[u8],
    place: usize,
    binders: usize,
    work: &mut [u8],
) -> Checked
    requires { FirstBranchTyped types.now part.now binders work.old }
    ensures enters { (v : FirstBranchTyped types.now part.now binders work.old)
        → Enters (q22_of_branch (properties_of groups.now) place (type_at types.now) (number part.now 0) v.type)
        (right v.tested ∷ v.ctx) binders work.old result work.new }
    ensures kept { (v : FirstBranchTyped types.now part.now binders work.old) → Slot work.new v.type }
{
    let asked = answer::ask(
        Question::Wanted,
        place,
        branch_fits(groups, types, part, work),
    );
    let at = work.len() - SLOT * (binders + 1);
    let from = at + TYPE_WIDTH * types::type_records(&work[at..]);
    move_type(work, from, at);
    asked
}

/// How many bytes of the front of the work buffer are not lent to the second branch of the case whose part of the
/// script `part` is: the first branch's type, where the case finds its own.
pub fn kept_branch(part: &[u8]) -> usize
    requires { script_width ≤ length part.now }
    ensures { result ≡ kept_branch part.now }
{
    if records::finds_own(part, 0) {
        SECOND_PART
    } else {
        0
    }
}

// The lowest type at or above the two found ones, written over the first, if there is one (31).
fn common_type(groups: &[u8], place: usize, work: &mut [u8]) -> Result<usize, Refusal>
    requires { TwoTypesHeld work.old }
    ensures { (v : TwoTypesHeld work.old)
        → Gives (found_or place (nearest_type (properties_of groups.now) below v.first v.second)) work.old result work.new }
{
    common_types::common(groups, Direction::Below, work, 0, SECOND_RECORD).ok_or(Refusal {
        question: Question::CommonType,
        place,
    })
}

// A case's type before it is raised: the one that it names, if the second branch's is at or below it (22), or the
// common one.
fn result_type(
    groups: &[u8],
    types: &[u8],
    part: &[u8],
    place: usize,
    work: &mut [u8],
) -> Result<usize, Refusal>
    requires { BranchesTyped types.now part.now work.old }
    ensures { (v : BranchesTyped types.now part.now work.old)
        → Gives (result_type (properties_of groups.now) (type_at types.now) place (number part.now 0)
        v.first v.second) work.old result work.new }
{
    if records::finds_own(part, 0) {
        common_type(groups, place, work)
    } else {
        adopt(groups, named(types, part), place, work)
    }
}

/// The type of a case after its second branch, raised by `by`, which is what testing left. The second branch's type
/// lies in front of `work`, behind the bytes that `kept_branch` tells, where the first one's is. The case's is left in
/// front of `work`, and the answer is its record count.
///
/// Refuses at `place`, the case's record, a branch's type that isn't at or below the one that the case names (22), or,
/// where it finds its own, two types that have no common one (31).
pub fn after_second_branch(
    groups: &[u8],
    types: &[u8],
    part: &[u8],
    place: usize,
    by: Influence,
    work: &mut [u8],
) -> Result<usize, Refusal>
    requires { BranchesTyped types.now part.now work.old }
    ensures { (v : BranchesTyped types.now part.now work.old)
        → Gives (case_type (properties_of groups.now) (type_at types.now) place (number part.now 0)
        v.first v.second (said_influence by)) work.old result work.new }
{
    let n = result_type(groups, types, part, place, work)?;
    types::raise(groups, work, by);
    Ok(n)
}
