// One failure of a constraint: what the constraint asks, and the failure in bytes, sized first and then written.
// Changed from the source that NOTICE names: ported to Rattle.
#![tactic(auto)]

ghost use Rattle.std.specs.Prelude.{◌≡◌, ◌≤◌, ℕ, ◌+◌, ◌<◌, length, List, ◌∷◌};
ghost use Rattle.definition.specs.Types as d;
ghost use Rattle.definition.specs.Constraints.{is_base, is_single, ability_failure};
ghost use Rattle.table.specs.State.{constraint_of, shape_of, FoundIn};
ghost use Rattle.table.specs.Did.{held, tables};
ghost use Rattle.definition.specs.Store.{with_args, spanned};
ghost use Rattle.failing.specs.Failing.{code_of, good, Asks, why, failing, FailingIn};
ghost use Rattle.writer.specs.Bytes.{AllBytes, Capped, Wrote};
ghost use Rattle.definition.specs.Write.{u32 as bytes-u32, write};

use names::TypeName;
use table::state::State;
use table::{Applied, Constraint, Shape};
use writer::{put_bytes, put_tag, size_type, write_head, write_type};

// ---- what a constraint asks

// What a type is to be, and the code of its failure.
#[derive(Clone, Copy)]
pub enum Wanted {
    Integer = 1,
    Base = 2,
    Single = 3,
}

// What a constraint asks that asks for no abilities.
#[derive(Clone, Copy)]
pub struct Ask {
    pub what: Wanted,
    pub loc: u32,
    pub ty: u32,
}

// A failure: what was wanted, its location, and the type as a node or `_` at a location. Of an ability that is missing:
// the location, the ability, the type as a node, and the argument that lacks, if it is not the declaration.
// No Unfolded of subst in it: subst is not below this crate, and node and `_` are written in two ways, in two arms, either way.
#[derive(Clone, Copy)]
pub enum Failing {
    Node(Wanted, u32, u32),
    Anything(Wanted, u32, u32),
    Lacks(u32, u8, u32, Option<u32>),
}

#[tactic(auto, unfolding(definition::specs::Constraints::is_single, definition::specs::Join::is_multiple, definition::specs::Store::with_args))]
fn is_single(s: Shape) -> bool
    ensures { (st : d.State) → result ≡ is_single (with_args st (shape_of s)) }
{
    !matches!(
        s,
        Shape::Unit
            | Shape::Apply(Applied {
                n: TypeName::Multiple(_),
                ..
            })
    )
}

#[tactic(auto, unfolding(definition::specs::Constraints::is_base, definition::specs::Constraints::is_single, definition::specs::Store::with_args))]
fn is_base(s: Shape) -> bool
    ensures { (st : d.State) → result ≡ is_base (with_args st (shape_of s)) }
{
    !matches!(s, Shape::Ref(_, _)) && is_single(s)
}

#[tactic(auto, unfolding(crate::specs::Failing::good))]
pub fn good(what: Wanted, s: Shape) -> bool
    ensures { (st : d.State) → result ≡ good what (with_args st (shape_of s)) }
{
    match what {
        Wanted::Integer => shapes::is_integer(s),
        Wanted::Base => is_base(s),
        Wanted::Single => is_single(s),
    }
}

#[tactic(auto, unfolding(crate::specs::Failing::ask, crate::specs::Failing::plain, crate::specs::Failing::good, definition::specs::Constraints::solve))]
pub fn ask_of(c: Constraint) -> Option<Ask>
    ensures { Asks result (constraint_of c) }
{
    match c {
        Constraint::Ability(_, _, _) => None,
        Constraint::Numeric(loc, ty) | Constraint::Bits(loc, ty) | Constraint::Ordered(loc, ty) =>
            Some(Ask {
                what: Wanted::Integer,
                loc,
                ty,
            }),
        Constraint::BaseType(loc, ty) => Some(Ask {
            what: Wanted::Base,
            loc,
            ty,
        }),
        Constraint::SingleType(loc, ty) => Some(Ask {
            what: Wanted::Single,
            loc,
            ty,
        }),
    }
}

// ---- in bytes

// How many bytes a rule has.
fn why_size(place: Option<u32>) -> u32
    ensures { (result ≡ length (why place)) × (result ≤ 2) }
{
    match place {
        None => 1,
        Some(_) => 2,
    }
}

// How many bytes the type t has and `around` others, if no more than `room`.
fn size_around(st: &State<'_>, t: u32, around: u32, room: u32) -> Option<u32>
    requires { (t < st.now.used.nodes) × (room ≤ 4096) }
    ensures { (ds : List d.Struct) → Capped room (around + length (write (held st.now ds) t)) result }
{
    let left = room.checked_sub(around)?;
    Some(around + size_type(st, t, left)?)
}

// How many bytes a failure has, if no more than `room`.
pub fn size_failing(st: &State<'_>, f: Failing, room: u32) -> Option<u32>
    requires { FailingIn st.now.used.nodes f × (room ≤ 4096) }
    ensures { (ds : List d.Struct) → Capped room (length (failing f (held st.now ds))) result }
{
    match f {
        Failing::Node(_, _, t) => size_around(st, t, 5, room),
        Failing::Anything(_, _, _) => if room < 10 { None } else { Some(10) },
        Failing::Lacks(_, _, t, place) => size_around(st, t, 6 + why_size(place), room),
    }
}

// A failure's code and location.
fn put_code(buf: &mut [u8], at: usize, what: Wanted, loc: u32) -> usize
    requires { at + 5 ≤ length buf.old }
    ensures { Wrote buf.old at (code_of what ∷ bytes-u32 loc) buf.new result }
{
    put_tag(buf, at, what as u8, loc)
}

fn put_why(buf: &mut [u8], at: usize, place: Option<u32>) -> usize
    requires { FoundIn 8 place × (at + length (why place) ≤ length buf.old) }
    ensures { Wrote buf.old at (why place) buf.new result }
{
    match place {
        None => put_bytes(buf, at, &[1]),
        Some(i) => put_bytes(buf, at, &[2, i as u8]),
    }
}

// The failure for an ability: its code, which no Wanted has and stands here alone, location, ability, type and rule.
fn write_lacks(
    st: &State<'_>,
    loc: u32,
    ability: u8,
    t: u32,
    place: Option<u32>,
    buf: &mut [u8],
    at: usize,
) -> usize
    requires inside { (t < st.now.used.nodes) × (FoundIn 8 place × AllBytes (tables st.now)) }
    requires fits { (ds : List d.Struct) → at + length (ability_failure (held st.now ds) loc ability (spanned (held st.now ds) t) (why place)) ≤ length buf.old }
    ensures { (ds : List d.Struct) → Wrote buf.old at (ability_failure (held st.now ds) loc ability (spanned (held st.now ds) t) (why place)) buf.new result }
{
    let head = put_tag(buf, at, 4, loc);
    let next = put_bytes(buf, head, &[ability]);
    let end = write_type(st, t, buf, next);
    put_why(buf, end, place)
}

pub fn write_failing(st: &State<'_>, f: Failing, buf: &mut [u8], at: usize) -> usize
    requires inside { FailingIn st.now.used.nodes f × AllBytes (tables st.now) }
    requires fits { (ds : List d.Struct) → at + length (failing f (held st.now ds)) ≤ length buf.old }
    ensures { (ds : List d.Struct) → Wrote buf.old at (failing f (held st.now ds)) buf.new result }
{
    match f {
        Failing::Node(what, loc, t) => {
            let next = put_code(buf, at, what, loc);
            write_type(st, t, buf, next)
        }
        Failing::Anything(what, loc, l) => {
            let next = put_code(buf, at, what, loc);
            write_head(l, Shape::Anything, buf, next)
        }
        Failing::Lacks(loc, ability, t, place) => {
            write_lacks(st, loc, ability, t, place, buf, at)
        }
    }
}
