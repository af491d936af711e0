// Which arm of join_impl two types take: the match of typing/core.rs on both operands, with its guards.
// Changed from the source that NOTICE names: ported to Rattle.
#![tactic(auto)]

ghost use Rattle.definition.specs.Join as d;
ghost use Rattle.std.specs.Prelude.{◌≡◌};
ghost use Rattle.names.specs.Names.{mark_of, name_of};
ghost use Rattle.table.specs.declared.Shape.{Shape};
ghost use Rattle.table.specs.declared.Shape.TheVariants.{Unit, Ref, Param, Var, UnresolvedError};
ghost use Rattle.table.specs.declared.Shape.TheVariants.{Apply};
ghost use Rattle.arms.specs.Arms.{case_of, Takes, Unlike};

use names::{TVar, TypeName};
use table::{Applied, Shape};

#[derive(Clone, Copy)]
pub enum TypingCase {
    Join,
    Subtype,
}

#[derive(Clone, Copy)]
pub enum Arm {
    // The answer is that operand.
    Lhs,
    Rhs,
    // The result: at which location, whether mutable; and the two inner types.
    Refs {
        at_left: bool,
        mutable: bool,
        t1: u32,
        t2: u32,
    },
    // Both types, of one name and mark.
    Applies(Applied, Applied),
    Vars(TVar, TVar),
    // That operand is the variable.
    VarLhs(TVar),
    VarRhs(TVar),
    SubtypeError,
    ArityMismatch,
    Incompatible,
    Disagree,
}

// match (case, mut1, mut2)
fn arm_refs(case: TypingCase, mut1: bool, t1: u32, mut2: bool, t2: u32) -> Arm
    ensures { Takes (case_of case) (Ref mut1 t1) (Ref mut2 t2) result }
{
    match (case, mut1, mut2) {
        (TypingCase::Join, true, _) => Arm::Refs {
            at_left: false,
            mutable: mut2,
            t1,
            t2,
        },
        (TypingCase::Join, false, _) => Arm::Refs {
            at_left: mut2,
            mutable: false,
            t1,
            t2,
        },
        (TypingCase::Subtype, true, _) => Arm::Refs {
            at_left: false,
            mutable: mut2,
            t1,
            t2,
        },
        (TypingCase::Subtype, false, true) => Arm::SubtypeError,
        (TypingCase::Subtype, false, false) => Arm::Refs {
            at_left: false,
            mutable: false,
            t1,
            t2,
        },
    }
}

// Names are compared before marks.
fn arm_applies(a1: Applied, a2: Applied) -> Arm
    ensures { (case : d.TypingCase) → Takes case (Apply a1) (Apply a2) result }
{
    if a1.n == a2.n {
        if a1.k == a2.k {
            Arm::Applies(a1, a2)
        } else {
            Arm::Disagree
        }
    } else {
        match (a1.n, a2.n) {
            (TypeName::Multiple(_), TypeName::Multiple(_)) => Arm::ArityMismatch,
            _ => Arm::Incompatible,
        }
    }
}

// A type that is no variable, `_` or error, beside one of another shape.
fn arm_other(rhs: Shape) -> Arm
    ensures { (case : d.TypingCase) (lhs : Shape) → Unlike lhs rhs → Takes case lhs rhs result }
{
    match rhs {
        Shape::Var(id) => Arm::VarRhs(id),
        Shape::Anything | Shape::UnresolvedError => Arm::Lhs,
        _ => Arm::Incompatible,
    }
}

// match (lhs, rhs)
pub fn arm_of(case: TypingCase, lhs: Shape, rhs: Shape) -> Arm
    ensures { Takes (case_of case) lhs rhs result }
{
    match (lhs, rhs) {
        (Shape::Anything, _) => Arm::Rhs,
        (Shape::Unit, Shape::Unit) => Arm::Rhs,
        (Shape::Ref(mut1, t1), Shape::Ref(mut2, t2)) => arm_refs(case, mut1, t1, mut2, t2),
        (Shape::Param(id1, _), Shape::Param(id2, _)) => {
            if id1 == id2 {
                Arm::Rhs
            } else {
                Arm::Incompatible
            }
        }
        (Shape::Apply(a1), Shape::Apply(a2)) => arm_applies(a1, a2),
        (Shape::Var(id1), Shape::Var(id2)) => {
            if id1 == id2 {
                Arm::Rhs
            } else {
                Arm::Vars(id1, id2)
            }
        }
        (Shape::Var(_), Shape::Anything) => Arm::Lhs,
        (Shape::Var(id), _) => Arm::VarLhs(id),
        (Shape::UnresolvedError, Shape::Var(id)) => Arm::VarRhs(id),
        (Shape::UnresolvedError, Shape::Anything) => Arm::Lhs,
        (Shape::UnresolvedError, _) => Arm::Rhs,
        _ => arm_other(rhs),
    }
}
