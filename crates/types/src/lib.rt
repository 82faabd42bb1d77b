// A type in bytes: the records of a types table or of a lent buffer, a type's sides, and raising.

#![tactic(auto)]

ghost use Rattle.std.specs.Prelude.{◌≡◌, ◌&&◌, nat_eq, nat_lt, ◌++◌, ◌+◌, ◌-◌, ◌≤◌, ◌<◌, length, drop, ◌*◌};
ghost use Rattle.rules.specs.Limits.{type_width};
ghost use Rattle.calculus.specs.Types.{Ty, top, raise_t, size_t};
ghost use Rattle.rules.specs.Groups.{properties_of};
ghost use Rattle.rules.specs.Types.{type_count, type_kind, type_r, type_zero, sides, encode_type};
ghost use Rattle.lattice.specs.Said.{said_property, said_influence};
ghost use Rattle.types.specs.Kinds.{type_kind_number, NamesTypeKind, TypeKindIs};
ghost use Rattle.types.specs.Held.{Held, Starts, TwoSided, LeftSize, kind_of_type, left_of, right_of};
ghost use Rattle.types.specs.Held.{type_property, with_property};

use lattice::{Creator, Indirect, IndirectCreator, Influence, Property, Reader};

/// The bytes of a type record: its kind, r, ir, a byte that is 0, c and ic.
pub const TYPE_WIDTH: usize = 6;

/// Byte of r in a record.
pub const R: usize = 1;

/// Byte of ir in a record.
pub const IR: usize = 2;

/// The byte of a record that is 0.
pub const ZERO: usize = 3;

/// Byte of c in a record.
pub const C: usize = 4;

/// Byte of ic in a record.
pub const IC: usize = 5;

/// The most records of a type.
pub const TYPE_LIMIT: usize = 63;

/// The kinds of types, in the order of their numbers, 0 to 4.
#[derive(Clone, Copy, Debug, PartialEq, Eq)]
pub enum Kind {
    /// The type of the one object of no content.
    Unit,
    /// Its objects are of the left side's type or of the right one's.
    Sum,
    /// Its objects have a part of the left side's type and one of the right one's.
    Pair,
    /// Left: its parameter; right: its result.
    Function,
    /// A whole number.
    Number,
}

/// A number that no kind has: 5 or more.
#[derive(Clone, Copy, Debug, PartialEq, Eq)]
pub struct UnknownKind(pub u8);

impl TryFrom<u8> for Kind {
    type Error = UnknownKind;

    ghost try_from_gives = { NamesTypeKind };

    fn try_from(number: u8) -> Result<Self, UnknownKind> {
        match number {
            0 => Ok(Kind::Unit),
            1 => Ok(Kind::Sum),
            2 => Ok(Kind::Pair),
            3 => Ok(Kind::Function),
            4 => Ok(Kind::Number),
            _ => Err(UnknownKind(number)),
        }
    }
}

impl Kind {
    /// Its number, as byte 0 of a record has it.
    pub fn number(self) -> u8
        ensures { result ≡ type_kind_number self }
    {
        self as u8
    }

    /// Is a type of this kind followed by a left and a right one?
    pub fn has_sides(self) -> bool
        ensures { result ≡ nat_eq (sides (type_kind_number self)) 2 }
    {
        !matches!(self, Kind::Unit | Kind::Number)
    }
}

/// How many whole records a types table has. A rest of less than a record isn't counted.
pub fn type_count(types: &[u8]) -> usize
    ensures { result ≡ type_count types.now }
{
    types.len() / TYPE_WIDTH
}

/// The number that record `index` has for its kind, be it that of a kind or not.
pub fn kind_number_at(types: &[u8], index: usize) -> u8
    requires { index < type_count types.now }
    ensures { result ≡ type_kind types.now index }
{
    types[TYPE_WIDTH * index]
}

/// The kind of record `index`, if there is a kind of its number.
pub fn kind_at(types: &[u8], index: usize) -> Option<Kind>
    requires { index < type_count types.now }
    ensures { TypeKindIs (type_kind types.now index) result }
{
    Kind::try_from(kind_number_at(types, index)).ok()
}

/// Is there a record `index`, and is it of this kind?
pub fn is_of_kind(types: &[u8], index: usize, kind: Kind) -> bool
    ensures { result
        ≡ (nat_lt index (type_count types.now) && nat_eq (type_kind types.now index) (type_kind_number kind)) }
{
    index < type_count(types) && kind_at(types, index) == Some(kind)
}

/// The group r of record `index`.
pub fn reader_at(types: &[u8], index: usize) -> Reader
    requires { index < type_count types.now }
    ensures { result.0 ≡ type_r types.now index }
{
    Reader(types[TYPE_WIDTH * index + R])
}

/// The byte of record `index` that is 0 in a checked table.
pub fn zero_byte_at(types: &[u8], index: usize) -> u8
    requires { index < type_count types.now }
    ensures { result ≡ type_zero types.now index }
{
    types[TYPE_WIDTH * index + ZERO]
}

/// The property of record `index`.
pub fn property_at(types: &[u8], index: usize) -> Property
    requires { index < type_count types.now }
    ensures { said_property result ≡ type_property types.now index }
{
    let r = reader_at(types, index);
    let ir = Indirect(types[TYPE_WIDTH * index + IR]);
    let c = Creator(types[TYPE_WIDTH * index + C]);
    let ic = IndirectCreator(types[TYPE_WIDTH * index + IC]);
    Property { r, ir, c, ic }
}

/// Writes a property into record `index`. Every other byte stays.
pub fn put_property(types: &mut [u8], index: usize, property: Property)
    requires { index < type_count types.old }
    ensures { types.new ≡ with_property types.old index (said_property property) }
{
    types[TYPE_WIDTH * index + R] = property.r.0;
    types[TYPE_WIDTH * index + IR] = property.ir.0;
    types[TYPE_WIDTH * index + C] = property.c.0;
    types[TYPE_WIDTH * index + IC] = property.ic.0;
}

// How many sides record i is followed by: none or two.
fn sides_at(types: &[u8], i: usize) -> usize
    requires { i < type_count types.now }
    ensures { result ≡ sides (type_kind types.now i) }
{
    match kind_at(types, i) {
        Some(Kind::Unit | Kind::Number) => 0,
        _ => 2,
    }
}

/// How many sides are still to come after record `index`, where `pending` were to come before it. An outermost type
/// is awaited by none.
pub fn pending_after(types: &[u8], index: usize, pending: usize) -> usize
    requires there { index < type_count types.now }
    requires few { pending ≤ index + 1 }
    ensures { result ≡ (pending - 1) + sides (type_kind types.now index) }
{
    pending.saturating_sub(1) + sides_at(types, index)
}

/// The part of a types table from record `index` to its end.
pub fn part_from(types: &[u8], index: usize) -> &[u8]
    requires { type_width * index ≤ length types.now }
    ensures { result.now ≡ drop (type_width * index) types.now }
{
    let from = TYPE_WIDTH * index;
    &types[from..]
}

/// The kind of the type that a part starts with.
pub fn kind_of(part: &[u8]) -> Kind
    requires { Starts part.now }
    ensures { (t : Ty) → Held part.now t → type_kind_number result ≡ kind_of_type t }
{
    kind_at(part, 0).unwrap()
}

/// Are the types that two parts start with of one kind?
pub fn of_one_kind(part: &[u8], other: &[u8]) -> bool
    requires first { Starts part.now }
    requires second { Starts other.now }
    ensures { (t u : Ty) → Held part.now t → Held other.now u → result ≡ nat_eq (kind_of_type t) (kind_of_type u) }
{
    kind_number_at(part, 0) == kind_number_at(other, 0)
}

/// The group r of the type that a part starts with.
pub fn reader(part: &[u8]) -> Reader
    requires { Starts part.now }
    ensures { (t : Ty) → Held part.now t → result.0 ≡ (top t).r }
{
    reader_at(part, 0)
}

/// The property of the type that a part starts with.
pub fn property(part: &[u8]) -> Property
    requires { Starts part.now }
    ensures { (t : Ty) → Held part.now t → said_property result ≡ top t }
{
    property_at(part, 0)
}

/// How many records the type has that a part starts with: one pass that counts the sides to come.
pub fn type_records(part: &[u8]) -> usize
    requires { Starts part.now }
    ensures { (t : Ty) → Held part.now t → result ≡ size_t t }
{
    let mut pending: usize = 1;
    let mut i: usize = 0;
    while 0 < pending {
        pending = pending_after(part, i, pending);
        i += 1;
    }
    i
}

/// The part that starts with the left side of the type that `part` starts with.
pub fn left_side(part: &[u8]) -> &[u8]
    requires { TwoSided part.now }
    ensures side { (t : Ty) → Held part.now t → Held result.now (left_of t) }
    ensures shorter { length result.now < length part.now }
{
    &part[TYPE_WIDTH..]
}

/// The part that starts with the right side of the type that `part` starts with, where the left one has `count`
/// records.
pub fn right_side(part: &[u8], count: usize) -> &[u8]
    requires { LeftSize part.now count }
    ensures side { (t : Ty) → Held part.now t → Held result.now (right_of t) }
    ensures shorter { length result.now < length part.now }
{
    let at = TYPE_WIDTH + TYPE_WIDTH * count;
    &part[at..]
}

/// Raises the type that a part starts with by an influence: joined into r and ir of its first record and met into its
/// c and ic, and nowhere deeper. Every other byte stays.
pub fn raise(groups: &[u8], part: &mut [u8], by: Influence)
    requires { Starts part.old }
    ensures raised { (t : Ty) (h : Held part.old t)
        → part.new ≡ encode_type (raise_t (properties_of groups.now) t (said_influence by)) ++ h.rest }
    ensures size { length part.new ≡ length part.old }
{
    let raised = property(part).raised(groups, by);
    put_property(part, 0, raised);
}
