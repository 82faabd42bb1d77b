// A run that never goes back to the root. The term lies in two lent buffers with a gap between its records: what is
// passed is the front of the one, `front`, and the term in focus, with all that follows it, the end of the other,
// `back`. Evaluation goes on from the contractum, where it stands: that is the step from the root.

#![tactic(auto)]

ghost use Rattle.std.specs.Prelude.{◌≡◌, [], ◌+◌, ◌*◌, ◌^◌, ◌≤◌, ◌<◌, if◌then◌else◌, nat_lt, length, take, drop, Some};
ghost use Rattle.std.specs.Prelude.{None, IsTrue};
ghost use Rattle.calculus.specs.Terms.{Term, protect, is_value, raise_value};
ghost use Rattle.calculus.specs.Reduction.{Context};
ghost use Rattle.rules.specs.Limits.{script_width};
ghost use Rattle.rules.specs.Groups.{properties_of};
ghost use Rattle.rules.specs.Types.{type_at};
ghost use Rattle.rules.specs.Script.{records as record_count, encode, size};
ghost use Rattle.memory.specs.Splice.{splice};
ghost use Rattle.records.specs.Place.{At};
ghost use Rattle.records.specs.Labels.{influence_at};
ghost use Rattle.redex.specs.Contexts.{offset, level};
ghost use Rattle.redex.specs.Fates.{is_potential_redex, contractum};
ghost use Rattle.contraction.specs.Order.{InOrder};
ghost use Rattle.contraction.specs.Plans.{protection};
ghost use Rattle.refocusing.specs.Focus.{Standing, FocusTurn, Stands, left_to_do, Advances, Settled};
ghost use Rattle.refocusing.specs.Contracted.{why_not, Foremost, ContractumAhead as WrittenAhead};
ghost use Rattle.refocusing.specs.Moves.{Passable, PassesOver, Fills, ValueLast, Component};
ghost use Rattle.refocusing.specs.Refocusing.{RunsRefocus};
ghost use Rattle.refocusing.specs.declared.Focus.TheVariants.{Ahead, Turn};

use contraction::Plan;
use memory::Writer;
use records::{Kind, SCRIPT_WIDTH};
use redex::Found;
use reduction::Stop;

/// How far a run is: the records that lie left of the gap, at the front of the one buffer; the record of the other one
/// that comes next, on the right of the gap; and the steps made.
#[derive(Clone, Copy, Debug, PartialEq, Eq)]
pub struct Point {
    pub left: usize,
    pub right: usize,
    pub steps: u64,
}

/// Where evaluation stands at the term in focus.
#[derive(Clone, Copy, Debug, PartialEq, Eq)]
pub enum Focus {
    /// It comes next, on the right of the gap.
    Ahead(Point),
    /// It lies left, and it is its turn: its evaluated operands are values.
    Turn(Point),
    /// It lies left, and is a value.
    Value(Point),
}

/// Why a run has ended, and how far it is. With no `stop` its budget is spent on a term that is no value.
#[derive(Clone, Copy, Debug, PartialEq, Eq)]
pub struct Ended {
    pub stop: Option<Stop>,
    pub point: Point,
}

// So many records from the right of the gap to its left.
fn pass(records: usize, point: Point, front: &mut [u8], back: &[u8]) -> Point
    requires from { script_width * (point.right + records) ≤ length back.now }
    requires to { script_width * (point.left + records) ≤ length front.old }
    ensures { PassesOver records (take (script_width * records) (drop (script_width * point.right) back.now))
        point result front.old front.new }
{
    let from = SCRIPT_WIDTH * point.right;
    let to = from + SCRIPT_WIDTH * records;
    memory::put(&back[from..to], front, SCRIPT_WIDTH * point.left);
    Point {
        left: point.left + records,
        right: point.right + records,
        steps: point.steps,
    }
}

// The term that comes next, passed as a whole.
fn pass_term(point: Point, front: &mut [u8], back: &[u8]) -> Point
    requires { Passable point front.old back.now }
    ensures { (e : Term) → At back.now point.right e
        → PassesOver (size e) (encode e) point result front.old front.new }
{
    pass(
        records::end_of(back, point.right) - point.right,
        point,
        front,
        back,
    )
}

// Why a run stops at a term that a step stops at so, unless its budget is spent: then it isn't asked.
fn stopped(stop: Stop, point: Point, budget: u64) -> Ended
    ensures stop { result.stop ≡ (if nat_lt point.steps budget then Some stop else None) }
    ensures point { result.point ≡ point }
{
    let asked = point.steps < budget;
    Ended {
        stop: if asked { Some(stop) } else { None },
        point,
    }
}

// The contractum of the redex at record `at`, over all of `room`.
fn write_over(groups: &[u8], types: &[u8], script: &[u8], at: usize, plan: Plan, room: &mut [u8])
    requires { Fills groups.now types.now script.now at plan room.old }
    ensures { (q : Fills groups.now types.now script.now at plan room.old)
        → room.new ≡ encode (contractum (properties_of groups.now) (type_at types.now) q.redex) }
{
    let mut out = Writer::new(room);
    contraction::write_contractum(groups, types, script, at, plan, &mut out);
}

// The contractum of the redex at record `at`, with `around` levels around it, in front of what comes next on the right.
// Nothing is written where the new term is too big: what stands beside the redex is within the limit of depth already,
// and the records are counted by the gap.
fn write_ahead(
    groups: &[u8],
    types: &[u8],
    at: usize,
    around: usize,
    plan: Plan,
    point: Point,
    front: &[u8],
    back: &mut [u8],
) -> Option<Point>
    requires foremost { (E : Context) × (e : Term)
        × Foremost groups.now types.now at around plan point front.now back.old E e }
    requires steps_fit { point.steps + 1 < 2 ^ 64 }
    ensures { (E : Context) (e : Term) → Foremost groups.now types.now at around plan point front.now back.old E e
        → WrittenAhead at point E (contractum (properties_of groups.now) (type_at types.now) e)
        back.old result back.new }
{
    let size = contraction::measure(front, at, plan);
    let rest = records::record_count(back) - point.right;
    if reduction::exceeds(back.len(), at + size.records + rest, around + size.depth) {
        return None;
    }
    let start = point.right - size.records;
    let room = &mut back[SCRIPT_WIDTH * start..SCRIPT_WIDTH * point.right];
    write_over(groups, types, front, at, plan, room);
    Some(Point {
        left: at,
        right: start,
        steps: point.steps + 1,
    })
}

// The value that the protect at record `at` raises, where it lies: it moves up to the protect's place, and is passed
// already.
fn raise(groups: &[u8], at: usize, point: Point, front: &mut [u8]) -> Point
    requires operand { ValueLast front.old (at + 1) point.left }
    requires steps_fit { point.steps + 1 < 2 ^ 64 }
    requires order { InOrder groups.now }
    ensures left { result.left + 1 ≡ point.left }
    ensures right { result.right ≡ point.right }
    ensures steps { result.steps ≡ point.steps + 1 }
    ensures front { (q : ValueLast front.old (at + 1) point.left) → front.new ≡ splice (script_width * at)
        (encode (raise_value (properties_of groups.now) q.value (influence_at front.old at))) front.old }
{
    let own = contraction::raised_record(groups, front, at);
    let value = at + 1;
    memory::shift(
        front,
        SCRIPT_WIDTH * value,
        SCRIPT_WIDTH * at,
        SCRIPT_WIDTH * (point.left - value),
    );
    memory::put(&own, front, SCRIPT_WIDTH * at);
    Point {
        left: point.left - 1,
        right: point.right,
        steps: point.steps + 1,
    }
}

// The component at record `part` that the projection at record `at` takes, where it lies: it moves up behind the
// protect that stands in the projection's place, whose turn it is.
fn project(groups: &[u8], at: usize, part: usize, point: Point, front: &mut [u8]) -> Point
    requires component { Component front.old at part }
    requires steps_fit { point.steps + 1 < 2 ^ 64 }
    requires order { InOrder groups.now }
    ensures left { (q : Component front.old at part) → result.left ≡ at + 1 + size q.term }
    ensures right { result.right ≡ point.right }
    ensures steps { result.steps ≡ point.steps + 1 }
    ensures front { (q : Component front.old at part) → front.new ≡ splice (script_width * at)
        (encode (protect (protection groups.now front.old at) q.term)) front.old }
{
    let own = contraction::protect_record(groups, front, at);
    let records = records::end_of(front, part) - part;
    let value = at + 1;
    memory::shift(
        front,
        SCRIPT_WIDTH * part,
        SCRIPT_WIDTH * value,
        SCRIPT_WIDTH * records,
    );
    memory::put(&own, front, SCRIPT_WIDTH * at);
    Point {
        left: value + records,
        right: point.right,
        steps: point.steps + 1,
    }
}

// Why the node that this is said of takes no step, if it takes none.
fn why_not(turn: Found) -> Option<Stop>
    ensures { result ≡ why_not turn }
{
    match turn {
        Found::Redex { .. } => None,
        Found::Denied => Some(Stop::MayNot),
        Found::Value(_) | Found::Stuck => Some(Stop::WrongKind),
    }
}

// The step of the node at record `at`, whose turn it is, with `around` levels around it. A protect and a projection
// need no room, and what they leave is passed already.
fn contract(
    groups: &[u8],
    types: &[u8],
    budget: u64,
    at: usize,
    around: usize,
    point: Point,
    front: &mut [u8],
    back: &mut [u8],
) -> Result<Focus, Ended>
    requires { FocusTurn groups.now types.now budget at around point front.old back.old }
    ensures { (whole : Term) (E : Context) (e : Term) → IsTrue (is_potential_redex e)
        → Stands groups.now types.now (length back.old) budget whole E e (encode e) [] point front.old back.old
        → at ≡ offset E → around ≡ level E
        → Advances groups.now types.now (length back.old) budget whole E
        (left_to_do budget (Turn point)) front.new back.new result }
{
    if point.steps == budget {
        return Err(Ended { stop: None, point });
    }
    if let Some(stop) = why_not(redex::turn(groups, types, front, at, around)) {
        return Err(Ended {
            stop: Some(stop),
            point,
        });
    }
    match contraction::plan_of(front, at) {
        Plan::Raised => Ok(Focus::Value(raise(groups, at, point, front))),
        Plan::Part(part) => Ok(Focus::Turn(project(groups, at, part, point, front))),
        plan => match write_ahead(groups, types, at, around, plan, point, front, back) {
            Some(point) => Ok(Focus::Ahead(point)),
            None => Err(Ended {
                stop: Some(Stop::TooBig),
                point,
            }),
        },
    }
}

// Passes the term in focus, each of its evaluated operands as the value that it comes to.
#[cycle(evaluate)]
fn operands(
    groups: &[u8],
    types: &[u8],
    budget: u64,
    around: usize,
    point: Point,
    front: &mut [u8],
    back: &mut [u8],
) -> Result<Focus, Ended>
    requires { Standing groups.now types.now budget around point front.old back.old }
    ensures { (whole : Term) (E : Context) (e : Term)
        → Stands groups.now types.now (length back.old) budget whole E e [] (encode e) point front.old back.old
        → around ≡ level E
        → Advances groups.now types.now (length back.old) budget whole E
        (left_to_do budget (Ahead point)) front.new back.new result }
{
    let kind = records::kind_of(back, point.right);
    match kind {
        Kind::Variable => return Err(stopped(Stop::WrongKind, point, budget)),
        Kind::Unit | Kind::Literal | Kind::Function => {
            return Ok(Focus::Value(pass_term(point, front, back)));
        }
        Kind::Recursion => return Ok(Focus::Turn(pass_term(point, front, back))),
        _ => {}
    }
    let inside = around + records::weight(back, point.right);
    let opened = pass(1, point, front, back);
    let first = settle(groups, types, budget, inside, opened, front, back)?;
    match kind {
        Kind::FirstInjection | Kind::SecondInjection => return Ok(Focus::Value(first)),
        Kind::Protect | Kind::FirstProjection | Kind::SecondProjection => {
            return Ok(Focus::Turn(first));
        }
        Kind::Case => {
            let branch = pass_term(first, front, back);
            return Ok(Focus::Turn(pass_term(branch, front, back)));
        }
        _ => {}
    }
    let second = settle(groups, types, budget, around + 1, first, front, back)?;
    match kind {
        Kind::Pair => Ok(Focus::Value(second)),
        _ => Ok(Focus::Turn(second)),
    }
}

/// Steps of the term that comes next at `point`, `around` levels down, until it is a value, which lies left of the gap
/// then, or the run has ended: at that value, at what stops a step, or with its budget of `budget` steps spent.
///
/// `front` holds what is passed, and `back` what comes next. Where the run ends, the last term is what stands on both
/// sides of the gap.
#[cycle(evaluate)]
pub fn settle(
    groups: &[u8],
    types: &[u8],
    budget: u64,
    around: usize,
    point: Point,
    front: &mut [u8],
    back: &mut [u8],
) -> Result<Point, Ended>
    requires { Standing groups.now types.now budget around point front.old back.old }
    ensures { (whole : Term) (E : Context) (e : Term)
        → Stands groups.now types.now (length back.old) budget whole E e [] (encode e) point front.old back.old
        → around ≡ level E
        → Settled groups.now types.now (length back.old) budget whole E
        (left_to_do budget (Ahead point)) front.new back.new result }
{
    let at = point.left;
    let mut focus = Focus::Ahead(point);
    loop {
        focus = match focus {
            Focus::Ahead(point) => operands(groups, types, budget, around, point, front, back)?,
            Focus::Turn(point) => contract(groups, types, budget, at, around, point, front, back)?,
            Focus::Value(point) => return Ok(point),
        };
    }
}

/// A step of a term in an evaluation context is the step of the whole, so a run goes on from the contractum, where it
/// stands.
#[tactic(auto, using(crate::proofs::Refocusing::runs_refocus))]
pub fn runs_refocus()
    ensures { RunsRefocus }
{}
