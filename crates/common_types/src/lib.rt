// The least type at or above two types, and the greatest at or below both: one walk with a direction, which turns
// round at functions. Both types stand in one lent buffer, and the common one is written over the first.

#![tactic(auto)]

ghost use Rattle.std.specs.Prelude.{◌≡◌, ◌*◌, nat_eq};
ghost use Rattle.calculus.specs.Types.{Ty};
ghost use Rattle.calculus.specs.Subtyping.{opposite};
ghost use Rattle.calculus.specs.Common.{nearest_type};
ghost use Rattle.rules.specs.Limits.{type_width};
ghost use Rattle.rules.specs.Groups.{properties_of};
ghost use Rattle.memory.specs.Splice.{splice};
ghost use Rattle.common_types.specs.Directions.{said_direction};
ghost use Rattle.types.specs.Held.{Held, kind_of_type};
ghost use Rattle.common_types.specs.Walks.{TypeAt, TwoTypes, common_record, Walked};

use types::Kind;

/// Where two types are to stand: below the common one, which is then the least such, or above it, which is then the
/// greatest.
#[derive(Clone, Copy, Debug, PartialEq, Eq)]
pub enum Direction {
    /// Below the common one: the join.
    Below,
    /// Above it: the meet.
    Above,
}

impl Direction {
    fn opposite(self) -> Self
        ensures { said_direction result ≡ opposite (said_direction self) }
    {
        match self {
            Direction::Below => Direction::Above,
            Direction::Above => Direction::Below,
        }
    }
}

// The part that starts with the type at record i.
fn type_at(work: &[u8], i: usize) -> &[u8]
    requires { (t : Ty) × TypeAt work.now i t }
    ensures { (t : Ty) → TypeAt work.now i t → Held result.now t }
{
    types::part_from(work, i)
}

// Are the types at records `at` and `other` of one kind?
fn of_one_kind(work: &[u8], at: usize, other: usize) -> bool
    requires { TwoTypes work.now at other }
    ensures { (p : TwoTypes work.now at other) → result ≡ nat_eq (kind_of_type p.first) (kind_of_type p.second) }
{
    types::of_one_kind(type_at(work, at), type_at(work, other))
}

// The join or the meet of the properties, in the first record of the first type.
fn bound_first(groups: &[u8], direction: Direction, work: &mut [u8], at: usize, other: usize)
    requires { TwoTypes work.old at other }
    ensures { (p : TwoTypes work.old at other)
        → work.new
        ≡ splice (type_width * at) (common_record (properties_of groups.now) (said_direction direction) p)
        work.old }
{
    let first = types::property_at(work, at);
    let second = types::property_at(work, other);
    let both = match direction {
        Direction::Below => first.join(groups, second),
        Direction::Above => first.meet(groups, second),
    };
    types::put_property(work, at, both);
}

/// Writes the common type of the types at records `at` and `other` of `work` over the first; of a function's left
/// sides, that of the opposite direction. The answer is its record count; `None` where somewhere they are of two
/// kinds, and then some records of the first type may be written over. No other byte changes. Types that have a
/// common one have as many records as it, so what the walk of the left sides counts says where both right sides
/// start. Calls nest no deeper than a type has records.
pub fn common(
    groups: &[u8],
    direction: Direction,
    work: &mut [u8],
    at: usize,
    other: usize,
) -> Option<usize>
    requires { TwoTypes work.old at other }
    ensures { (p : TwoTypes work.old at other)
        → Walked (nearest_type (properties_of groups.now) (said_direction direction) p.first p.second) p.first at
        work.old result work.new }
{
    if !of_one_kind(work, at, other) {
        return None;
    }
    let kind = types::kind_of(type_at(work, at));
    bound_first(groups, direction, work, at, other);
    if !kind.has_sides() {
        return Some(1);
    }
    let leftward = match kind {
        Kind::Function => direction.opposite(),
        _ => direction,
    };
    let next = at + 1;
    let next_other = other + 1;
    let left = common(groups, leftward, work, next, next_other)?;
    let right = common(groups, direction, work, next + left, next_other + left)?;
    Some(1 + (left + right))
}
