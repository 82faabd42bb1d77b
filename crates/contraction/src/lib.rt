// A redex's contractum: how it is made, its measure, and its records written.

#![tactic(auto)]

ghost use Rattle.std.specs.Prelude.{◌≡◌, if◌then◌else◌, ◌++◌, ℕ, ◌+◌, ◌^◌, ◌<◌, drop, IsTrue};
ghost use Rattle.calculus.specs.Security.{Security};
ghost use Rattle.calculus.specs.Types.{Ty, top};
ghost use Rattle.calculus.specs.Terms.{Term, protect, mu, literal, reckon, is_value, substitute, raise_value};
ghost use Rattle.calculus.specs.Reduction.{unrolled_function};
ghost use Rattle.rules.specs.Limits.{script_width};
ghost use Rattle.rules.specs.Groups.{properties_of};
ghost use Rattle.rules.specs.Types.{type_at};
ghost use Rattle.rules.specs.Script.{records as record_count, encode};
ghost use Rattle.calculus.specs.Numbers.{of_both};
ghost use Rattle.lattice.specs.Said.{said_property, said_influence};
ghost use Rattle.records.specs.Kinds as kinds;
ghost use Rattle.records.specs.Numbers.{kind_number};
ghost use Rattle.records.specs.Labels.{influence_at};
ghost use Rattle.records.specs.Place.{At, Here};
ghost use Rattle.redex.specs.Fates.{only_reader, contractum};
ghost use Rattle.memory.specs.Written.{Room, Written};
ghost use Rattle.contraction.specs.Order.{InOrder, up_to};
ghost use Rattle.contraction.specs.Plans.{Fires, CaseRedex, Planned, PlannedRedex, Measures, BodyAndValue, Recursive, Literals};
ghost use Rattle.contraction.specs.Plans.{PartRoom, BodyRoom, RaisedRoom, protection, protect_record, UnrolledRoom};
ghost use Rattle.contraction.specs.Plans.{reckon_contractum, flag, FlagRoom, ReckonedRoom, ContractumRoom};

use lattice::{Creator, Indirect, IndirectCreator, Influence, Property, ROW_WIDTH, Reader};
use memory::Writer;
use records::{Kind, SCRIPT_WIDTH};
use substitution::Size;

/// How a redex's contractum is made of parts of its script. Places are records.
#[derive(Clone, Copy, Debug, PartialEq, Eq)]
pub enum Plan {
    /// Of a projection: the component that it takes, protected.
    Part(usize),
    /// Of an application or a case: a body with a value put in for its variable, protected.
    Body { body: usize, value: usize },
    /// Of a protect: its operand, raised.
    Raised,
    /// Of a recursion: its body with the recursion put in for its variable.
    Unrolled,
    /// Of a sum or a comparison: what is reckoned of two literals.
    Reckoned,
}

// The plan of the case at record `at`: the branch of its injection's side, with the injected value put in.
fn branch_of(script: &[u8], at: usize) -> Plan
    requires { CaseRedex script.now at }
    ensures { (q : CaseRedex script.now at) → Planned script.now q.tree result }
{
    let value = at + 2;
    let first = records::end_of(script, value);
    match records::kind_of(script, at + 1) {
        Kind::FirstInjection => Plan::Body { body: first, value },
        _ => Plan::Body {
            body: records::end_of(script, first),
            value,
        },
    }
}

/// The plan of the redex at record `at`: which parts of the script its contractum is made of.
pub fn plan_of(script: &[u8], at: usize) -> Plan
    requires { Fires script.now at }
    ensures { (q : Fires script.now at) → Planned script.now q.tree result }
{
    // The first operand's own operand: each record stands before its operands.
    let inner = at + 2;
    match records::kind_of(script, at) {
        Kind::Recursion => Plan::Unrolled,
        Kind::Protect => Plan::Raised,
        Kind::Sum | Kind::Less => Plan::Reckoned,
        Kind::FirstProjection => Plan::Part(inner),
        Kind::SecondProjection => Plan::Part(records::end_of(script, inner)),
        Kind::Application => Plan::Body {
            body: inner,
            value: records::end_of(script, inner),
        },
        _ => branch_of(script, at),
    }
}

// What a protect around a term of this size measures.
fn protected(e: Size) -> Size
    requires records_fit { e.records + 1 < 2 ^ 64 }
    requires depth_fits { e.depth + 1 < 2 ^ 64 }
    ensures records { result.records ≡ e.records + 1 }
    ensures depth { result.depth ≡ e.depth + 1 }
{
    Size {
        records: e.records + 1,
        depth: e.depth + 1,
    }
}

// A body with a value put in, counted.
fn measure_body(script: &[u8], body: usize, value: usize) -> Size
    requires { BodyAndValue script.now body value }
    ensures { (q : BodyAndValue script.now body value) → Measures (substitute 0 q.value q.body) result }
{
    let v = substitution::extent_at(script, value).size;
    substitution::measure(script, body, 0, v).size
}

// An unrolled recursion, counted: what stands for its variable is the recursion, applied to a variable in a function.
fn measure_unrolled(script: &[u8], at: usize) -> Size
    requires { Recursive script.now at }
    ensures { (q : Recursive script.now at) (S : Security) (tab : ℕ → Ty)
        → Measures (contractum S tab (mu q.label q.type q.body)) result }
{
    let recursion = substitution::extent_at(script, at).size;
    let unrolled = Size {
        records: recursion.records + 3,
        depth: recursion.depth + 2,
    };
    substitution::measure(script, at + 1, 0, unrolled).size
}

// What is reckoned of two literals, counted: a literal, or an injection of a unit.
fn measure_reckoned(script: &[u8], at: usize) -> Size
    requires { Literals script.now at }
    ensures { (q : Literals script.now at) (S : Security) (tab : ℕ → Ty)
        → Measures (contractum S tab
        (reckon q.operation q.label (literal q.left.own q.left.value) (literal q.right.own q.right.value))) result }
{
    let records = match records::kind_of(script, at) {
        Kind::Sum => 1,
        _ => 2,
    };
    Size {
        records,
        depth: records,
    }
}

/// The size of the contractum of the redex at record `at`, by its plan.
///
/// Nothing is written: a substitution can name millions of records.
pub fn measure(script: &[u8], at: usize, plan: Plan) -> Size
    requires { PlannedRedex script.now at plan }
    ensures { (q : PlannedRedex script.now at plan) (S : Security) (tab : ℕ → Ty)
        → Measures (contractum S tab q.tree) result }
{
    match plan {
        Plan::Part(part) => protected(substitution::extent_at(script, part).size),
        Plan::Body { body, value } => protected(measure_body(script, body, value)),
        // Raising changes no size.
        Plan::Raised => substitution::extent_at(script, at + 1).size,
        Plan::Unrolled => measure_unrolled(script, at),
        Plan::Reckoned => measure_reckoned(script, at),
    }
}

// The bytes of the term at record i.
fn term_bytes(script: &[u8], i: usize) -> &[u8]
    requires { Here script.now i }
    ensures { (e : Term) → At script.now i e → result.now ≡ encode e }
{
    records::part(script, i, records::end_of(script, i))
}

// The rows of groups 0 to g. No later group is below g, so a search for a meet with g finds in them what it finds in
// the whole table.
fn up_to(groups: &[u8], g: u8) -> &[u8]
    ensures { result.now ≡ up_to groups.now g }
{
    let end = ROW_WIDTH * (usize::from(g) + 1);
    &groups[..end.min(groups.len())]
}

// What a reading by this group leaves on its result.
fn influence(groups: &[u8], read: Property, reader: Reader) -> Influence
    requires { InOrder groups.now }
    ensures { said_influence result ≡ (properties_of groups.now).influence (said_property read) reader.0 }
{
    let met = read.ic.0.min(reader.0);
    read.influence(up_to(groups, met), reader)
}

// κ • (ir, ic). The rows reach to each group that is joined and to the lower of any two that meet.
fn raised(groups: &[u8], own: Property, by: Influence) -> Property
    requires { InOrder groups.now }
    ensures { said_property result ≡ (properties_of groups.now).raise (said_property own) (said_influence by) }
{
    let joined = own.r.0.max(own.ir.0).max(by.ir.0);
    let met = by.ic.0.min(own.c.0.max(own.ic.0));
    own.raised(up_to(groups, joined.max(met)), by)
}

// What reckoning by this group gives of operands of these properties.
fn reckoned(groups: &[u8], left: Property, right: Property, reader: Reader) -> Property
    requires { InOrder groups.now }
    ensures { said_property result
        ≡ of_both (properties_of groups.now) reader.0 (said_property left) (said_property right) }
{
    let joined = left.ir.0.max(right.ir.0);
    let met = reader.0.min(left.ic.0.max(right.ic.0));
    left.reckoned_with(up_to(groups, joined.max(met)), right, reader)
}

// The groups of a record that names a reader only.
fn only_reader(r: Reader) -> Property
    ensures { said_property result ≡ only_reader r.0 }
{
    Property {
        r,
        ir: Indirect(0),
        c: Creator(0),
        ic: IndirectCreator(0),
    }
}

/// The record of the protect that a step leaves: what the destructor at record `at` leaves on its result when it reads
/// the object at the next record.
pub fn protect_record(groups: &[u8], script: &[u8], at: usize) -> [u8; SCRIPT_WIDTH]
    requires order { InOrder groups.now }
    requires operand { at + 1 < record_count script.now }
    ensures { result ≡ protect_record (protection groups.now script.now at) }
{
    let read = records::property(script, at + 1);
    let left = influence(groups, read, records::reader(script, at));
    let property = Property {
        r: Reader(0),
        ir: left.ir,
        c: Creator(0),
        ic: left.ic,
    };
    records::record(Kind::Protect, property, 0)
}

// That protect, written.
fn write_protect(groups: &[u8], script: &[u8], at: usize, out: &mut Writer)
    requires order { InOrder groups.now }
    requires operand { at + 1 < record_count script.now }
    requires room { Room (protect_record (protection groups.now script.now at)) out.old }
    ensures { Written (protect_record (protection groups.now script.now at)) out.old out.new }
{
    out.put(&protect_record(groups, script, at));
}

// A protected part of what the destructor at record `at` takes apart.
fn write_part(groups: &[u8], script: &[u8], at: usize, part: usize, out: &mut Writer)
    requires { PartRoom groups.now script.now at part out.old }
    ensures { (q : PartRoom groups.now script.now at part out.old)
        → Written (encode (protect (protection groups.now script.now at) q.part)) out.old out.new }
{
    write_protect(groups, script, at, out);
    out.put(term_bytes(script, part));
}

// A protected body with a value put in. The value is put in as it stands: it isn't raised.
fn write_body(groups: &[u8], script: &[u8], at: usize, body: usize, value: usize, out: &mut Writer)
    requires { BodyRoom groups.now script.now at body value out.old }
    ensures { (q : BodyRoom groups.now script.now at body value out.old)
        → Written
        (encode (protect (protection groups.now script.now at) (substitute 0 q.value q.body)))
        out.old out.new }
{
    write_protect(groups, script, at, out);
    let operand = term_bytes(script, value);
    substitution::write(script, body, &[], operand, &[], 0, out);
}

/// The own record of the value at the record after `at`, raised by the protect at record `at`. The rest of the value
/// stays.
pub fn raised_record(groups: &[u8], script: &[u8], at: usize) -> [u8; SCRIPT_WIDTH]
    requires order { InOrder groups.now }
    requires operand { Here script.now (at + 1) }
    ensures { (v : Term) → At script.now (at + 1) v → IsTrue (is_value v)
        → encode (raise_value (properties_of groups.now) v (influence_at script.now at))
        ≡ result ++ drop script_width (encode v) }
{
    let x = at + 1;
    let by = records::influence(script, at);
    let raised = raised(groups, records::property(script, x), by);
    let kind = records::kind_of(script, x);
    let number = records::number(script, x);
    records::record(kind, raised, number)
}

// The value at record `at` + 1, raised by the protect at record `at`: the groups of its own record, and none deeper.
fn write_raised(groups: &[u8], script: &[u8], at: usize, out: &mut Writer)
    requires { RaisedRoom groups.now script.now at out.old }
    ensures { (q : RaisedRoom groups.now script.now at out.old)
        → Written
        (encode (raise_value (properties_of groups.now) q.value (influence_at script.now at)))
        out.old out.new }
{
    let value = term_bytes(script, at + 1);
    out.put(&raised_record(groups, script, at));
    out.put(&value[SCRIPT_WIDTH..]);
}

// The body of a recursion, with the recursion put in for its variable: (λx. (μf. e) x), with the groups of the
// recursion's type, its parameter type the next record of the table, and the application made as the group that the
// recursion's record names.
fn write_unrolled(types: &[u8], script: &[u8], at: usize, out: &mut Writer)
    requires { UnrolledRoom types.now script.now at out.old }
    ensures { (q : UnrolledRoom types.now script.now at out.old)
        → Written
        (encode
        (substitute 0 (unrolled_function (properties_of q.groups) q.label q.type (top (type_at types.now q.type)) q.body) q.body))
        out.old out.new }
{
    let named = records::number(script, at);
    let caller = records::reader(script, at);
    let function = types::property_at(types, usize::from(named));
    let front = [
        records::record(Kind::Function, function, named + 1),
        records::record(Kind::Application, only_reader(caller), 0),
    ];
    let recursion = term_bytes(script, at);
    let back = records::record(Kind::Variable, only_reader(Reader(0)), 0);
    substitution::write(
        script,
        at + 1,
        front.as_flattened(),
        recursion,
        &back,
        0,
        out,
    );
}

// The kind of the injection that says whether the left number is less.
fn flag_kind(is_less: bool) -> Kind
    ensures { kind_number result ≡ (if is_less then kinds.first_injection else kinds.second_injection) }
{
    if is_less {
        Kind::FirstInjection
    } else {
        Kind::SecondInjection
    }
}

// The record of that side of type i, a sum of two units.
fn flag_side(i: usize, is_less: bool) -> usize
    requires { i + 2 < 2 ^ 64 }
    ensures { result ≡ (if is_less then i + 1 else i + 2) }
{
    if is_less { i + 1 } else { i + 2 }
}

// Whether the left number is less: the injection of the unit of that side of type i.
fn write_flag(types: &[u8], i: u16, property: Property, is_less: bool, out: &mut Writer)
    requires { FlagRoom types.now i (said_property property) is_less out.old }
    ensures { Written
        (encode (flag (type_at types.now) i (said_property property) is_less))
        out.old out.new }
{
    let side = types::property_at(types, flag_side(usize::from(i), is_less));
    out.put(&records::record(flag_kind(is_less), property, i));
    out.put(&records::record(Kind::Unit, side, 0));
}

// What the sum or the comparison at record `at` gives of the two literals after it, each of which is one record.
fn write_reckoned(groups: &[u8], types: &[u8], script: &[u8], at: usize, out: &mut Writer)
    requires { ReckonedRoom groups.now types.now script.now at out.old }
    ensures { (q : ReckonedRoom groups.now types.now script.now at out.old)
        → Written (encode (reckon_contractum groups.now types.now q.literals)) out.old out.new }
{
    let first = at + 1;
    let second = at + 2;
    let reader = records::reader(script, at);
    let left = records::property(script, first);
    let right = records::property(script, second);
    let property = reckoned(groups, left, right, reader);
    let m = records::number(script, first);
    let n = records::number(script, second);
    match records::kind_of(script, at) {
        Kind::Sum => out.put(&records::record(Kind::Literal, property, m.saturating_add(n))),
        _ => write_flag(types, records::number(script, at), property, m < n, out),
    }
}

/// Writes the contractum of the redex at record `at`, by its plan.
pub fn write_contractum(
    groups: &[u8],
    types: &[u8],
    script: &[u8],
    at: usize,
    plan: Plan,
    out: &mut Writer,
)
    requires { ContractumRoom groups.now types.now script.now at plan out.old }
    ensures { (q : ContractumRoom groups.now types.now script.now at plan out.old)
        → Written
        (encode (contractum (properties_of groups.now) (type_at types.now) q.ready.tree))
        out.old out.new }
{
    match plan {
        Plan::Part(part) => write_part(groups, script, at, part, out),
        Plan::Body { body, value } => write_body(groups, script, at, body, value, out),
        Plan::Raised => write_raised(groups, script, at, out),
        Plan::Unrolled => write_unrolled(types, script, at, out),
        Plan::Reckoned => write_reckoned(groups, types, script, at, out),
    }
}
