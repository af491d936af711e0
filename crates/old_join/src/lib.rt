// typing/core.rs, slowly: join, subtype, join_impl, join_impl_types, join_tvar. Beside `join`; what calls no join is in `arms` and `old_merge`.
// Changed from the source that NOTICE names: ported to Rattle.
#![tactic(auto)]

ghost use Rattle.std.specs.Prelude.{ℕ, ◌<◌};
ghost use Rattle.definition.specs.Store.{args_at};
ghost use Rattle.definition.specs.Join.{join, subtype, join_impl, join_impl_types, join_tvar};
ghost use Rattle.table.specs.Did.{Did};
ghost use Rattle.table.specs.State.{args_of};
ghost use Rattle.arms.specs.Arms.{case_of};
ghost use Rattle.join.specs.Join.{ArgsIn, Joined};
ghost use Rattle.history.specs.Past.{as_rows, Within};

use arms::{Arm, TypingCase};
use history::Past;
use join::Types;
use merge::VarAt;
use names::MAX_DEPTH;
use refusals::Refusal;
use table::state::{State, Stop};
use table::{Applied, Shape, TypingError, WORDS};

// The operand walk; `left` is how many calls deep it may still go.
#[cycle(join_impl_join_impl_types_join_tvar)]
fn join_impl(
    past: &mut Past<'_>,
    case: TypingCase,
    left: u32,
    lhs: u32,
    rhs: u32,
) -> Result<u32, Stop>
    requires { (lhs < past.old.st.used.nodes) × (rhs < past.old.st.used.nodes) }
    ensures { Did (as_rows past.old) (as_rows past.new) result (λ s. join_impl left s (case_of case) lhs rhs) × Within past.old past.new }
{
    if left == 0 {
        return Err(Stop::Refused(Refusal::TooDeep));
    }
    let less = left - 1;
    let l = past.node_at(lhs);
    let r = past.node_at(rhs);
    match arms::arm_of(case, l.shape, r.shape) {
        Arm::Lhs => Ok(lhs),
        Arm::Rhs => Ok(rhs),
        Arm::Refs {
            at_left,
            mutable,
            t1,
            t2,
        } => {
            let loc = if at_left { l.loc } else { r.loc };
            let t = join_impl(past, case, less, t1, t2)?;
            past.push_node(loc, Shape::Ref(mutable, t))
        }
        Arm::Applies(t1, t2) => {
            let a = join_impl_types(past, case, less, t1, t2)?;
            past.push_apply(r.loc, t2.k, t2.n, a.tys, a.many)
        }
        Arm::Vars(id1, id2) => join_tvar(past, case, less, VarAt(l.loc, id1), VarAt(r.loc, id2)),
        Arm::VarLhs(id) => match old_merge::meet_tvar(past, lhs, rhs, lhs, id, rhs)? {
            None => Ok(lhs),
            Some(v) => join_tvar(past, case, less, VarAt(l.loc, id), VarAt(r.loc, v)),
        },
        Arm::VarRhs(id) => match old_merge::meet_tvar(past, lhs, rhs, rhs, id, lhs)? {
            None => Ok(rhs),
            Some(v) => join_tvar(past, case, less, VarAt(l.loc, v), VarAt(r.loc, id)),
        },
        Arm::SubtypeError => Err(Stop::Failed(TypingError::SubtypeError(lhs, rhs))),
        Arm::ArityMismatch => Err(Stop::Failed(TypingError::ArityMismatch(lhs, rhs))),
        Arm::Incompatible => Err(Stop::Failed(TypingError::Incompatible(lhs, rhs))),
        Arm::Disagree => Err(Stop::Refused(Refusal::AbilitiesDisagree)),
    }
}

// The argument walk, over as many as both lists have: their joins.
#[cycle(join_impl_join_impl_types_join_tvar)]
fn join_impl_types(
    past: &mut Past<'_>,
    case: TypingCase,
    left: u32,
    t1: Applied,
    t2: Applied,
) -> Result<Types, Stop>
    requires { ArgsIn (as_rows past.old) t1 × ArgsIn (as_rows past.old) t2 }
    ensures { Joined (as_rows past.old) (as_rows past.new) result (λ s. join_impl_types (λ s c l r. join_impl left s c l r) s (case_of case) (args_at s (args_of t1)) (args_at s (args_of t2))) × Within past.old past.new }
{
    let many = t1.many.min(t2.many);
    let mut tys = [0u32; 8];
    for i in 0..many {
        let ty1 = past.arg_at(t1.first, i);
        let ty2 = past.arg_at(t2.first, i);
        tys[i as usize] = join_impl(past, case, left, ty1, ty2)?;
    }
    Ok(Types { tys, many })
}

// The variable merge.
#[cycle(join_impl_join_impl_types_join_tvar)]
fn join_tvar(
    past: &mut Past<'_>,
    case: TypingCase,
    left: u32,
    v1: VarAt,
    v2: VarAt,
) -> Result<u32, Stop>
    ensures { Did (as_rows past.old) (as_rows past.new) result (λ s. join_tvar (λ s c l r. join_impl left s c l r) s (case_of case) v1.0 v1.1.0 v2.0 v2.1.0) × Within past.old past.new }
{
    let m = old_merge::open_tvar(past, v1, v2)?;
    let ty = join_impl(past, case, left, m.ty1, m.ty2)?;
    old_merge::close_tvar(past, v1, v2, m, ty)
}

// ---- of a state in words: the run goes on a copy of them, and they are written at the end, after an error too

fn join_case(st: &mut State<'_>, case: TypingCase, lhs: u32, rhs: u32) -> Result<u32, Stop>
    requires { (lhs < st.old.used.nodes) × (rhs < st.old.used.nodes) }
    ensures { Did st.old st.new result (λ s. join_impl 256 s (case_of case) lhs rhs) }
{
    let mut words = [0u32; WORDS];
    let mut past = Past::start(st, &mut words);
    let out = join_impl(&mut past, case, MAX_DEPTH, lhs, rhs);
    past.store(st);
    out
}

pub fn join(st: &mut State<'_>, lhs: u32, rhs: u32) -> Result<u32, Stop>
    requires { (lhs < st.old.used.nodes) × (rhs < st.old.used.nodes) }
    ensures { Did st.old st.new result (λ s. join s lhs rhs) }
{
    join_case(st, TypingCase::Join, lhs, rhs)
}

pub fn subtype(st: &mut State<'_>, lhs: u32, rhs: u32) -> Result<u32, Stop>
    requires { (lhs < st.old.used.nodes) × (rhs < st.old.used.nodes) }
    ensures { Did st.old st.new result (λ s. subtype s lhs rhs) }
{
    join_case(st, TypingCase::Subtype, lhs, rhs)
}
