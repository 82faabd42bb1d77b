// A script's records: their fields, the table of kinds, and where a term ends.

#![tactic(auto)]

ghost use Rattle.std.specs.Prelude.{◌≡◌, ◌+◌, ◌-◌, ◌*◌, ◌≤◌, ◌<◌, take, drop};
ghost use Rattle.rules.specs.Limits.{script_width};
ghost use Rattle.calculus.specs.Terms.{Term};
ghost use Rattle.rules.specs.Script.{records, kind, r, ir, zero_byte, number, c, ic, signature, signature_of, arity};
ghost use Rattle.rules.specs.Script.{is_object, object_record, size, own_at, term_end};
ghost use Rattle.lattice.specs.Said.{said_property, said_influence};
ghost use Rattle.records.specs.Kinds.{is_injection};
ghost use Rattle.records.specs.Numbers.{kind_number, NamesKind, KindIs};
ghost use Rattle.records.specs.Place.{At, Here};
ghost use Rattle.records.specs.Labels.{property_at, influence_at};
ghost use Rattle.answer.specs.Said.{option_of};
ghost use Rattle.records.specs.Said.{said_line};
ghost use Rattle.records.specs.Binders.{binds};
ghost use Rattle.records.specs.Weight.{weight_at};

use lattice::{Creator, Indirect, IndirectCreator, Influence, Property, Reader};

/// The bytes of a script record: its kind, r, ir, a byte that is 0, its number (lowest byte first), c and ic.
pub const SCRIPT_WIDTH: usize = 8;

/// The kinds of script records, in the order of their numbers, 0 to 14.
#[derive(Clone, Copy, Debug, PartialEq, Eq)]
pub enum Kind {
    /// No operands; its number counts the binders outward, 0 the nearest.
    Variable,
    /// No operands: the object of no content.
    Unit,
    /// Its body, under a binder; its number is the parameter type.
    Function,
    /// Its first and its second part.
    Pair,
    /// What is injected to the left; its number is the sum type.
    FirstInjection,
    /// What is injected to the right; its number is the sum type.
    SecondInjection,
    /// The function and its argument.
    Application,
    /// The pair whose first part is taken.
    FirstProjection,
    /// The pair whose second part is taken.
    SecondProjection,
    /// What is tested, and two branches, each under a binder; its number is the result type, or `OWN_TYPE`.
    Case,
    /// What is protected.
    Protect,
    /// Its body, under a binder; its number is the function type.
    Recursion,
    /// No operands; its number is its value.
    Literal,
    /// The two numbers that are added.
    Sum,
    /// The two numbers that are compared; its number is a sum of two units.
    Less,
}

/// A number that no kind has: 15 or more.
#[derive(Clone, Copy, Debug, PartialEq, Eq)]
pub struct UnknownKind(pub u8);

impl TryFrom<u8> for Kind {
    type Error = UnknownKind;

    ghost try_from_gives = { NamesKind };

    fn try_from(number: u8) -> Result<Self, UnknownKind> {
        match number {
            0 => Ok(Kind::Variable),
            1 => Ok(Kind::Unit),
            2 => Ok(Kind::Function),
            3 => Ok(Kind::Pair),
            4 => Ok(Kind::FirstInjection),
            5 => Ok(Kind::SecondInjection),
            6 => Ok(Kind::Application),
            7 => Ok(Kind::FirstProjection),
            8 => Ok(Kind::SecondProjection),
            9 => Ok(Kind::Case),
            10 => Ok(Kind::Protect),
            11 => Ok(Kind::Recursion),
            12 => Ok(Kind::Literal),
            13 => Ok(Kind::Sum),
            14 => Ok(Kind::Less),
            _ => Err(UnknownKind(number)),
        }
    }
}

impl Kind {
    /// Its number, as byte 0 of a record has it.
    pub fn number(self) -> u8
        ensures { result ≡ kind_number self }
    {
        self as u8
    }

    /// Its line of the table of kinds.
    #[tactic(auto, unfolding(rules::specs::Script::signature_of, rules::specs::Script::signatures))]
    pub fn signature(self) -> Signature
        ensures { said_line result ≡ signature_of (kind_number self) }
    {
        match self {
            Kind::Variable => entry(0, false, false, true, false),
            Kind::Unit => entry(0, true, true, false, false),
            Kind::Function => entry(1, true, true, true, true),
            Kind::Pair => entry(2, true, true, false, false),
            Kind::FirstInjection => entry(1, true, true, true, true),
            Kind::SecondInjection => entry(1, true, true, true, true),
            Kind::Application => entry(2, true, false, false, false),
            Kind::FirstProjection => entry(1, true, false, false, false),
            Kind::SecondProjection => entry(1, true, false, false, false),
            Kind::Case => entry(3, true, false, true, true),
            Kind::Protect => entry(1, false, true, false, false),
            Kind::Recursion => entry(1, true, false, true, true),
            Kind::Literal => entry(0, true, true, true, false),
            Kind::Sum => entry(2, true, false, false, false),
            Kind::Less => entry(2, true, false, true, true),
        }
    }

    /// How many operands follow a record of this kind: at most 3.
    pub fn arity(self) -> usize
        ensures value { result ≡ arity (kind_number self) }
        ensures small { result ≤ 3 }
    {
        usize::from(self.signature().operands)
    }

    /// How many binders stand over operand `operand`, counted from 0, of a record of this kind: at most 1.
    #[tactic(auto, unfolding(crate::specs::Binders::binds))]
    pub fn binders(self, operand: usize) -> u8
        ensures value { result ≡ binds (kind_number self) operand }
        ensures small { result ≤ 1 }
    {
        match self {
            Kind::Function | Kind::Recursion => u8::from(operand == 0),
            Kind::Case => u8::from(operand != 0),
            _ => 0,
        }
    }

    /// Is it an object's: a unit, a function, a pair, an injection or a literal?
    pub fn is_object(self) -> bool
        ensures { result ≡ is_object (kind_number self) }
    {
        matches!(
            self,
            Kind::Unit
                | Kind::Function
                | Kind::Pair
                | Kind::FirstInjection
                | Kind::SecondInjection
                | Kind::Literal
        )
    }

    /// Is it the first or the second injection?
    pub fn is_injection(self) -> bool
        ensures { result ≡ is_injection (kind_number self) }
    {
        matches!(self, Kind::FirstInjection | Kind::SecondInjection)
    }
}

/// The number of a case that finds its own type, in the place of a type's index.
pub const OWN_TYPE: u16 = 65535;

/// How many whole records a script has. A rest of less than a record isn't counted.
pub fn record_count(script: &[u8]) -> usize
    ensures { result ≡ records script.now }
{
    script.len() / SCRIPT_WIDTH
}

/// The number that record `index` has for its kind, be it that of a kind or not.
pub fn kind_number_at(script: &[u8], index: usize) -> u8
    requires { index < records script.now }
    ensures { result ≡ kind script.now index }
{
    script[SCRIPT_WIDTH * index]
}

/// The kind of record `index`, if there is a kind of its number.
pub fn kind_at(script: &[u8], index: usize) -> Option<Kind>
    requires { index < records script.now }
    ensures { KindIs (kind script.now index) result }
{
    Kind::try_from(kind_number_at(script, index)).ok()
}

/// The kind of the term that stands at record `index`.
pub fn kind_of(script: &[u8], index: usize) -> Kind
    requires { Here script.now index }
    ensures { kind_number result ≡ kind script.now index }
{
    kind_at(script, index).unwrap()
}

/// The line of the table of kinds for a number: nothing is named where no kind has it.
pub fn signature_of(number: u8) -> Signature
    ensures { said_line result ≡ signature_of number }
{
    match Kind::try_from(number) {
        Ok(kind) => kind.signature(),
        Err(_) => entry(0, false, false, false, false),
    }
}

/// How many binders stand over operand `operand`, counted from 0, of a record whose kind has this number: at most 1,
/// and none where no kind has it.
#[tactic(auto, unfolding(crate::specs::Binders::binds))]
pub fn binders(number: u8, operand: usize) -> usize
    ensures value { result ≡ binds number operand }
    ensures small { result ≤ 1 }
{
    match Kind::try_from(number) {
        Ok(kind) => usize::from(kind.binders(operand)),
        Err(_) => 0,
    }
}

/// The line of the table of kinds for record `index`: nothing is named where no kind has its number.
pub fn signature_at(script: &[u8], index: usize) -> Signature
    requires { index < records script.now }
    ensures { said_line result ≡ signature_of (kind script.now index) }
{
    signature_of(kind_number_at(script, index))
}

/// How many operands follow record `index`: at most 3, and none where no kind has its number.
pub fn arity_at(script: &[u8], index: usize) -> usize
    requires { index < records script.now }
    ensures value { result ≡ arity (kind script.now index) }
    ensures small { result ≤ 3 }
{
    usize::from(signature_at(script, index).operands)
}

/// The group r of record `index`: byte 1.
pub fn reader(script: &[u8], index: usize) -> Reader
    requires { index < records script.now }
    ensures { result.0 ≡ r script.now index }
{
    Reader(script[SCRIPT_WIDTH * index + 1])
}

/// The group ir of record `index`: byte 2.
pub fn indirect(script: &[u8], index: usize) -> Indirect
    requires { index < records script.now }
    ensures { result.0 ≡ ir script.now index }
{
    Indirect(script[SCRIPT_WIDTH * index + 2])
}

/// Byte 3 of record `index`, which is 0 in a checked script.
pub fn zero_byte(script: &[u8], index: usize) -> u8
    requires { index < records script.now }
    ensures { result ≡ zero_byte script.now index }
{
    script[SCRIPT_WIDTH * index + 3]
}

/// The number of record `index`: bytes 4 and 5, the lowest first.
pub fn number(script: &[u8], index: usize) -> u16
    requires { index < records script.now }
    ensures { result ≡ number script.now index }
{
    u16::from_le_bytes([
        script[SCRIPT_WIDTH * index + 4],
        script[SCRIPT_WIDTH * index + 5],
    ])
}

/// The group c of record `index`: byte 6.
pub fn creator(script: &[u8], index: usize) -> Creator
    requires { index < records script.now }
    ensures { result.0 ≡ c script.now index }
{
    Creator(script[SCRIPT_WIDTH * index + 6])
}

/// The group ic of record `index`: byte 7.
pub fn indirect_creator(script: &[u8], index: usize) -> IndirectCreator
    requires { index < records script.now }
    ensures { result.0 ≡ ic script.now index }
{
    IndirectCreator(script[SCRIPT_WIDTH * index + 7])
}

/// The four groups of record `index`, as the property of an object.
pub fn property(script: &[u8], index: usize) -> Property
    requires { index < records script.now }
    ensures { said_property result ≡ property_at script.now index }
{
    let r = reader(script, index);
    let ir = indirect(script, index);
    let c = creator(script, index);
    let ic = indirect_creator(script, index);
    Property { r, ir, c, ic }
}

/// The groups ir and ic of record `index`, as the influence that a protect carries.
pub fn influence(script: &[u8], index: usize) -> Influence
    requires { index < records script.now }
    ensures { said_influence result ≡ influence_at script.now index }
{
    let ir = indirect(script, index);
    let ic = indirect_creator(script, index);
    Influence { ir, ic }
}

/// The bytes of a record of this kind that names these groups and this number.
pub fn record(kind: Kind, property: Property, number: u16) -> [u8; SCRIPT_WIDTH]
    ensures { result ≡ object_record (kind_number kind) (said_property property) number }
{
    let [low, high] = number.to_le_bytes();
    [
        kind.number(),
        property.r.0,
        property.ir.0,
        0,
        low,
        high,
        property.c.0,
        property.ic.0,
    ]
}

/// A line of the table of kinds: what a record of a kind has.
#[derive(Clone, Copy, Debug, PartialEq, Eq)]
pub struct Signature {
    /// How many operands follow it.
    pub operands: u8,
    /// Does it name r?
    pub r: bool,
    /// Does it name ir?
    pub ir: bool,
    /// Does it name c?
    pub c: bool,
    /// Does it name ic?
    pub ic: bool,
    /// Does it name a number?
    pub number: bool,
    /// Does the number name a type?
    pub typed: bool,
}

// An object, which names r and ir, names c, and what names ir names ic.
fn entry(operands: u8, r: bool, ir: bool, number: bool, typed: bool) -> Signature
    ensures { said_line result ≡ signature operands r ir number typed }
{
    Signature {
        operands,
        r,
        ir,
        c: r & ir,
        ic: ir,
        number,
        typed,
    }
}

/// Is record `index` a case that finds its own type?
pub fn finds_own(script: &[u8], index: usize) -> bool
    requires { index < records script.now }
    ensures { result ≡ own_at script.now index }
{
    matches!(kind_at(script, index), Some(Kind::Case)) & (number(script, index) == OWN_TYPE)
}

/// How much deeper than record `index` its operands stand: 2 below a case that finds its own type, else 1.
pub fn weight(script: &[u8], index: usize) -> usize
    requires { index < records script.now }
    ensures value { result ≡ weight_at script.now index }
    ensures small { result ≤ 2 }
{
    if finds_own(script, index) { 2 } else { 1 }
}

/// The record after the term that starts at record `start`, if it ends before the script does: one pass that counts
/// the terms to come. Nothing is asked of its records but how many operands they have.
pub fn term_end(script: &[u8], start: usize) -> Option<usize>
    ensures { option_of result ≡ term_end script.now start }
{
    let mut pending: usize = 1;
    for i in start..record_count(script) {
        pending = pending - 1 + arity_at(script, i);
        if pending == 0 {
            return Some(i + 1);
        }
    }
    None
}

/// The records from `start` to the one before `end`.
pub fn part(script: &[u8], start: usize, end: usize) -> &[u8]
    requires order { start ≤ end }
    requires there { end ≤ records script.now }
    ensures { result.now ≡ take (script_width * (end - start)) (drop (script_width * start) script.now) }
{
    let from = SCRIPT_WIDTH * start;
    let to = SCRIPT_WIDTH * end;
    &script[from..to]
}

/// The record after the term that stands at record `index`.
pub fn end_of(script: &[u8], index: usize) -> usize
    requires { Here script.now index }
    ensures { (e : Term) → At script.now index e → result ≡ index + size e }
{
    term_end(script, index).unwrap()
}
