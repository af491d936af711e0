// typing/core.rs: join, subtype, join_impl, join_impl_types, join_tvar. What calls no join is in `arms` and `merge`.
// Changed from the source that NOTICE names: ported to Rattle.
#![tactic(auto)]

ghost use Rattle.std.specs.Prelude.{◌≡◌, List, ℕ, ◌*◌, ◌<◌, ◌≤◌};
ghost use Rattle.definition.specs.Types as d;
ghost use Rattle.definition.specs.Store.{args_at};
ghost use Rattle.definition.specs.Join.{join, subtype, join_impl, join_impl_types, join_tvar};
ghost use Rattle.definition.specs.Links.{links_impl, links_types, links_tvar, join_links};
ghost use Rattle.table.specs.Did.{held, Did};
ghost use Rattle.table.specs.State.{args_of};
ghost use Rattle.arms.specs.Arms.{case_of};
ghost use Rattle.merge.specs.Merge.{Follows};
ghost use Rattle.join.specs.Join.{ArgsIn, Joined};

use arms::{Arm, TypingCase};
use merge::VarAt;
use names::MAX_DEPTH;
use refusals::Refusal;
use table::read::ReadState;
use table::state::{State, Stop};
use table::{Applied, Shape, TypingError};

// Types, one for each argument: the first `many` of `tys`. Eight places and a count, as push_apply takes them (tparams says why).
#[derive(Clone, Copy)]
pub struct Types {
    pub tys: [u32; 8],
    pub many: u32,
}

// A join's answer, and how many links its merges followed up to it.
#[derive(Clone, Copy)]
pub struct Followed {
    pub out: Result<u32, Stop>,
    pub links: u32,
}

// join, and the links that it followed.
pub fn join_links(st: &mut State<'_>, lhs: u32, rhs: u32) -> Followed
    requires { (lhs < st.old.used.nodes) × (rhs < st.old.used.nodes) }
    ensures { Did st.old st.new result.out (λ s. join s lhs rhs) × ((ds : List d.Struct) → result.links ≡ join_links (held st.old ds) lhs rhs) }
{
    let mut links = 0;
    let out = join_impl(st, TypingCase::Join, MAX_DEPTH, lhs, rhs, &mut links);
    Followed { out, links }
}

pub fn join(st: &mut State<'_>, lhs: u32, rhs: u32) -> Result<u32, Stop>
    requires { (lhs < st.old.used.nodes) × (rhs < st.old.used.nodes) }
    ensures { Did st.old st.new result (λ s. join s lhs rhs) }
{
    join_links(st, lhs, rhs).out
}

pub fn subtype(st: &mut State<'_>, lhs: u32, rhs: u32) -> Result<u32, Stop>
    requires { (lhs < st.old.used.nodes) × (rhs < st.old.used.nodes) }
    ensures { Did st.old st.new result (λ s. subtype s lhs rhs) }
{
    let mut links = 0;
    join_impl(st, TypingCase::Subtype, MAX_DEPTH, lhs, rhs, &mut links)
}

// The operand walk; `left` is how many calls deep it may still go. The links that its merges follow are added to those followed so far, up to an error too.
#[cycle(join_impl_join_impl_types_join_tvar)]
fn join_impl(
    st: &mut State<'_>,
    case: TypingCase,
    left: u32,
    lhs: u32,
    rhs: u32,
    links: &mut u32,
) -> Result<u32, Stop>
    requires { ((lhs < st.old.used.nodes) × (rhs < st.old.used.nodes)) × (links.old ≤ 2048 * st.old.used.vars) }
    ensures { Did st.old st.new result (λ s. join_impl left s (case_of case) lhs rhs) × Follows st.old st.new result links.old links.new (λ s. links_impl left s (case_of case) lhs rhs) }
{
    if left == 0 {
        return Err(Stop::Refused(Refusal::TooDeep));
    }
    let less = left - 1;
    let l = st.node_at(lhs);
    let r = st.node_at(rhs);
    match arms::arm_of(case, l.shape, r.shape) {
        Arm::Lhs => Ok(lhs),
        Arm::Rhs => Ok(rhs),
        Arm::Refs {
            at_left,
            mutable,
            t1,
            t2,
        } => {
            let loc = if at_left { l.loc } else { r.loc };
            let t = join_impl(st, case, less, t1, t2, links)?;
            st.push_node(loc, Shape::Ref(mutable, t))
        }
        Arm::Applies(t1, t2) => {
            let a = join_impl_types(st, case, less, t1, t2, links)?;
            st.push_apply(r.loc, t2.k, t2.n, a.tys, a.many)
        }
        Arm::Vars(id1, id2) => {
            join_tvar(st, case, less, VarAt(l.loc, id1), VarAt(r.loc, id2), links)
        }
        Arm::VarLhs(id) => match merge::meet_tvar(st, lhs, rhs, lhs, id, rhs)? {
            None => Ok(lhs),
            Some(v) => join_tvar(st, case, less, VarAt(l.loc, id), VarAt(r.loc, v), links),
        },
        Arm::VarRhs(id) => match merge::meet_tvar(st, lhs, rhs, rhs, id, lhs)? {
            None => Ok(rhs),
            Some(v) => join_tvar(st, case, less, VarAt(l.loc, v), VarAt(r.loc, id), links),
        },
        Arm::SubtypeError => Err(Stop::Failed(TypingError::SubtypeError(lhs, rhs))),
        Arm::ArityMismatch => Err(Stop::Failed(TypingError::ArityMismatch(lhs, rhs))),
        Arm::Incompatible => Err(Stop::Failed(TypingError::Incompatible(lhs, rhs))),
        Arm::Disagree => Err(Stop::Refused(Refusal::AbilitiesDisagree)),
    }
}

// The argument walk, over as many as both lists have: their joins.
#[cycle(join_impl_join_impl_types_join_tvar)]
fn join_impl_types(
    st: &mut State<'_>,
    case: TypingCase,
    left: u32,
    t1: Applied,
    t2: Applied,
    links: &mut u32,
) -> Result<Types, Stop>
    requires { (ArgsIn st.old t1 × ArgsIn st.old t2) × (links.old ≤ 2048 * st.old.used.vars) }
    ensures { Joined st.old st.new result (λ s. join_impl_types (λ s c l r. join_impl left s c l r) s (case_of case) (args_at s (args_of t1)) (args_at s (args_of t2))) × Follows st.old st.new result links.old links.new (λ s. links_types (λ s c l r. join_impl left s c l r) (λ s c l r. links_impl left s c l r) s (case_of case) (args_at s (args_of t1)) (args_at s (args_of t2))) }
{
    let many = t1.many.min(t2.many);
    let mut tys = [0u32; 8];
    for i in 0..many {
        let ty1 = st.arg_at(t1.first, i);
        let ty2 = st.arg_at(t2.first, i);
        tys[i as usize] = join_impl(st, case, left, ty1, ty2, links)?;
    }
    Ok(Types { tys, many })
}

// The variable merge.
#[cycle(join_impl_join_impl_types_join_tvar)]
fn join_tvar(
    st: &mut State<'_>,
    case: TypingCase,
    left: u32,
    v1: VarAt,
    v2: VarAt,
    links: &mut u32,
) -> Result<u32, Stop>
    requires { links.old ≤ 2048 * st.old.used.vars }
    ensures { Did st.old st.new result (λ s. join_tvar (λ s c l r. join_impl left s c l r) s (case_of case) v1.0 v1.1.0 v2.0 v2.1.0) × Follows st.old st.new result links.old links.new (λ s. links_tvar (λ s c l r. links_impl left s c l r) s (case_of case) v1.0 v1.1.0 v2.0 v2.1.0) }
{
    let m = merge::open_tvar(st, v1, v2, links)?;
    let ty = join_impl(st, case, left, m.ty1, m.ty2, links)?;
    merge::close_tvar(st, v1, v2, m, ty)
}
