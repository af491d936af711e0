// typing/core.rs: what kind of type a node's shape is, and its parts.
// Changed from the source that NOTICE names: ported to Rattle.
#![tactic(auto)]

ghost use Rattle.std.specs.Prelude.{◌≡◌, List, ℕ, ◌<◌, get_or};
ghost use Rattle.definition.specs.Types as d;
ghost use Rattle.definition.specs.Store.{with_args};
ghost use Rattle.definition.specs.Subst.{as_var, is_anything, parts};
ghost use Rattle.definition.specs.Join.{is_numeric, fits, num_shape, is_var};
ghost use Rattle.definition.specs.Constraints.{undecided, is_integer};
ghost use Rattle.names.specs.Names.{name_of};
ghost use Rattle.table.specs.State.{shape_of};
ghost use Rattle.table.specs.Did.{held};
ghost use Rattle.shapes.specs.Parts.{next, part_count};

use names::{TVar, TypeName};
use table::Shape;
use table::read::ReadState;

// ---- tests

pub fn as_var(s: Shape) -> Option<TVar>
    ensures { (st : d.State) → next result ≡ as_var (with_args st (shape_of s)) }
{
    match s {
        Shape::Var(v) => Some(v),
        _ => None,
    }
}

pub fn is_var(v: TVar, s: Shape) -> bool
    ensures { (st : d.State) → result ≡ is_var v.0 (with_args st (shape_of s)) }
{
    as_var(s) == Some(v)
}

pub fn is_anything(s: Shape) -> bool
    ensures { (st : d.State) → result ≡ is_anything (with_args st (shape_of s)) }
{
    matches!(s, Shape::Anything)
}

// UnresolvedError | Anything
pub fn undecided(s: Shape) -> bool
    ensures { (st : d.State) → result ≡ undecided (with_args st (shape_of s)) }
{
    matches!(s, Shape::Anything | Shape::UnresolvedError)
}

fn is_numeric(n: TypeName) -> bool
    ensures { result ≡ is_numeric (name_of n) }
{
    matches!(n, TypeName::Builtin(b) if names::is_numeric(b))
}

pub fn is_integer(s: Shape) -> bool
    ensures { (st : d.State) → result ≡ is_integer (with_args st (shape_of s)) }
{
    matches!(s, Shape::Apply(a) if is_numeric(a.n))
}

// An integer type that has so many bits.
fn fits(need: u32, n: TypeName) -> bool
    ensures { result ≡ fits need (name_of n) }
{
    match n {
        TypeName::Builtin(b) => names::is_numeric(b) && need <= names::width(b),
        _ => false,
    }
}

// A type that is no variable: what a numeric variable takes that needs so many bits.
pub fn num_shape(need: u32, s: Shape) -> bool
    ensures { (st : d.State) → result ≡ num_shape need (with_args st (shape_of s)) }
{
    match s {
        Shape::Apply(a) => fits(need, a.n),
        _ => undecided(s),
    }
}

// ---- parts

pub fn part_count(s: Shape) -> u32
    ensures { result ≡ part_count (shape_of s) }
{
    match s {
        Shape::Ref(_, _) => 1,
        Shape::Apply(a) => a.many,
        _ => 0,
    }
}

// Part i of a type.
pub fn part_at<S: ReadState>(st: &S, s: Shape, i: u32) -> u32
    ensures { (ds : List d.Struct) → i < part_count (shape_of s) → result ≡ get_or (parts (with_args (held (S.state st.now) ds) (shape_of s))) i 0 }
{
    match s {
        Shape::Ref(_, t) => t,
        Shape::Apply(a) => st.arg_at(a.first, i),
        _ => 0,
    }
}
