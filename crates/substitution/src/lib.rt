// Substitution of a closed value for a variable, measured without writing, and written.

#![tactic(auto)]

ghost use Rattle.std.specs.Prelude.{◌≡◌, if◌then◌else◌, ◌++◌, ◌+◌, ◌*◌, ◌≤◌, ◌<◌, nat_eq, length};
ghost use Rattle.calculus.specs.Terms.{Term};
ghost use Rattle.rules.specs.Script.{records as record_count, kind, number, encode, size, depth};
ghost use Rattle.records.specs.Kinds as kinds;
ghost use Rattle.records.specs.Place.{At};
ghost use Rattle.memory.specs.Written.{Room, Written};
ghost use Rattle.substitution.specs.Substituted.{Sizes, Measured, TermWithinLimits, Extends, record_at, Substitution};
ghost use Rattle.substitution.specs.Substituted.{Substituted};

use memory::Writer;
use records::{Kind, SCRIPT_WIDTH};

/// The record count and the depth of a term.
#[derive(Clone, Copy, Debug, PartialEq, Eq)]
pub struct Size {
    pub records: usize,
    pub depth: usize,
}

/// The record after a term, and the size of what the term becomes.
#[derive(Clone, Copy, Debug, PartialEq, Eq)]
pub struct Extent {
    pub next: usize,
    pub size: Size,
}

// Is the variable at record i variable n?
fn is_variable(script: &[u8], i: usize, n: u16) -> bool
    requires { i < record_count script.now }
    ensures { result ≡ nat_eq (number script.now i) n }
{
    records::number(script, i) == n
}

// A variable with a value of this size for variable n, counted.
fn measure_variable(script: &[u8], i: usize, n: u16, value: Size) -> Extent
    requires { i < record_count script.now }
    ensures next { result.next ≡ i + 1 }
    ensures records { result.size.records ≡ (if nat_eq (number script.now i) n then value.records else 1) }
    ensures depth { result.size.depth ≡ (if nat_eq (number script.now i) n then value.depth else 1) }
{
    let next = i + 1;
    let size = if is_variable(script, i, n) {
        value
    } else {
        Size {
            records: 1,
            depth: 1,
        }
    };
    Extent { next, size }
}

/// The record after the term at record `at`, and the size of that term with a value of size `value` for its variable
/// `variable`.
///
/// Nothing is written: the sum may be millions of records, and only a term that is not too big is written.
pub fn measure(script: &[u8], at: usize, variable: u16, value: Size) -> Extent
    requires { Sizes script.now at variable value }
    ensures { (e v : Term) → At script.now at e
        → value.records ≡ size v → value.depth ≡ depth v → Measured at variable e v result }
{
    let kind = records::kind_of(script, at);
    if kind == Kind::Variable {
        return measure_variable(script, at, variable, value);
    }
    let mut next = at + 1;
    let mut sum: usize = 1;
    let mut below: usize = 0;
    for j in 0..kind.arity() {
        let level = variable + u16::from(kind.binders(j));
        let x = measure(script, next, level, value);
        next = x.next;
        sum += x.size.records;
        below = below.max(x.size.depth);
    }
    let size = Size {
        records: sum,
        depth: below + records::weight(script, at),
    };
    Extent { next, size }
}

/// The record after the term at record `at`, and the size of that term.
pub fn extent_at(script: &[u8], at: usize) -> Extent
    requires { TermWithinLimits script.now at }
    ensures { (e : Term) → At script.now at e → Extends at e result }
{
    // A value of one record changes neither count.
    let one = Size {
        records: 1,
        depth: 1,
    };
    measure(script, at, 0, one)
}

// Record i as it stands.
fn write_record(script: &[u8], i: usize, out: &mut Writer)
    requires inside { i < record_count script.now }
    requires room { Room (record_at script.now i) out.old }
    ensures { Written (record_at script.now i) out.old out.new }
{
    out.put(records::part(script, i, i + 1));
}

// A variable: the value where it is variable n, else the record itself.
fn write_variable(
    script: &[u8],
    i: usize,
    front: &[u8],
    mid: &[u8],
    back: &[u8],
    n: u16,
    out: &mut Writer,
) -> usize
    requires given { Substitution script.now i front.now mid.now back.now n out.old }
    requires variable { kind script.now i ≡ kinds.variable }
    ensures { (e v : Term) → At script.now i e
        → front.now ++ (mid.now ++ back.now) ≡ encode v
        → Substituted i n e v out.old result out.new }
{
    if is_variable(script, i, n) {
        out.put(front);
        out.put(mid);
        out.put(back);
    } else {
        write_record(script, i, out);
    }
    i + 1
}

/// Writes the term at record `at` with the value for its variable `variable`, and answers the record after the term.
///
/// The value comes in three pieces, one behind the other, since an unrolled function stands nowhere as a whole: only
/// the recursion in it does.
pub fn write(
    script: &[u8],
    at: usize,
    front: &[u8],
    mid: &[u8],
    back: &[u8],
    variable: u16,
    out: &mut Writer,
) -> usize
    requires { Substitution script.now at front.now mid.now back.now variable out.old }
    ensures { (e v : Term) → At script.now at e
        → front.now ++ (mid.now ++ back.now) ≡ encode v
        → Substituted at variable e v out.old result out.new }
{
    let kind = records::kind_of(script, at);
    if kind == Kind::Variable {
        return write_variable(script, at, front, mid, back, variable, out);
    }
    write_record(script, at, out);
    let mut next = at + 1;
    for j in 0..kind.arity() {
        let level = variable + u16::from(kind.binders(j));
        next = write(script, next, front, mid, back, level, out);
    }
    next
}
