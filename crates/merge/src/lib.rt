// The variable merge around its inner join, and a variable that meets another type: what of join_tvar and join_impl calls no join.
// Changed from the source that NOTICE names: ported to Rattle.
#![tactic(auto)]

ghost use Rattle.std.specs.Prelude.{ℕ, ◌+◌, ◌*◌, ◌<◌, ◌≤◌};
ghost use Rattle.definition.specs.Subst.{links};
ghost use Rattle.definition.specs.Join.{type_of, merge_num, larger, shown, join_unbound};
ghost use Rattle.table.specs.Did.{Did, Kept, number_by};
ghost use Rattle.merge.specs.Merge.{open_ends, open_tvar, show_both, close_tvar, meet_tvar, Opens, OneTaken, Follows, Meets};

use names::TVar;
use subst::BindError;
use table::read::ReadState;
use table::state::{State, Stop};
use table::{Shape, TypingError};

// A location, and the variable there.
#[derive(Clone, Copy)]
pub struct VarAt(pub u32, pub TVar);

// The end of a chain that began with a variable at `loc`: the last variable, its numeric mark (location and need) and its type.
#[derive(Clone, Copy)]
struct End {
    loc: u32,
    last_id: TVar,
    num_loc: Option<u32>,
    need: u32,
    ty: u32,
}

// A merge before its inner join: the types of both ends, the fresh variable, and the result's node.
#[derive(Clone, Copy)]
pub struct Merging {
    pub ty1: u32,
    pub ty2: u32,
    pub new_tvar: TVar,
    pub var2: u32,
}

// The type of a chain's end: a new `_` where it is not bound.
fn type_of(st: &mut State<'_>, loc: u32, id: TVar) -> Result<u32, Stop>
    ensures { Did st.old st.new result (λ s. type_of s loc id.0) }
{
    match st.bound_at(id) {
        None => st.push_node(loc, Shape::Anything),
        Some(t) => Ok(t),
    }
}

// The fresh variable is numeric if either end is, and needs so many bits; the second's location wins.
fn merge_num(
    st: &mut State<'_>,
    num_loc_1: Option<u32>,
    num_loc_2: Option<u32>,
    need: u32,
    new_tvar: TVar,
)
    ensures { Kept st.old st.new (λ s. merge_num s num_loc_1 num_loc_2 need new_tvar.0) }
{
    if let Some(nloc) = num_loc_2.or(num_loc_1) {
        subst::set_num_var(st, new_tvar, nloc);
        st.set_need(new_tvar, need);
    }
}

// Both ends are bound to a fresh variable, which needs what either does.
fn open_ends(st: &mut State<'_>, e1: End, e2: End) -> Result<Merging, Stop>
    requires { (e1.ty < st.old.used.nodes) × (e2.ty < st.old.used.nodes) }
    ensures { Opens st.old st.new result (λ s k. open_ends k s e1.loc e1.last_id.0 e1.num_loc e1.ty e2.loc e2.last_id.0 e2.num_loc e2.ty (larger e1.need e2.need)) × OneTaken result st.old.used.vars st.new.used.vars }
{
    let new_tvar = st.take_var()?;
    let need = e1.need.max(e2.need);
    merge_num(st, e1.num_loc, e2.num_loc, need, new_tvar);
    let var1 = st.push_node(e1.loc, Shape::Var(new_tvar))?;
    let var2 = st.push_node(e2.loc, Shape::Var(new_tvar))?;
    st.bind_var(e1.last_id, var1);
    st.bind_var(e2.last_id, var2);
    Ok(Merging {
        ty1: e1.ty,
        ty2: e2.ty,
        new_tvar,
        var2,
    })
}

// The ends of both chains, with their types and numeric marks. The links of both are added to those followed so far.
pub fn open_tvar(
    st: &mut State<'_>,
    v1: VarAt,
    v2: VarAt,
    followed: &mut u32,
) -> Result<Merging, Stop>
    requires { followed.old ≤ 2048 * st.old.used.vars }
    ensures { Opens st.old st.new result (λ s k. open_tvar k s v1.0 v1.1.0 v2.0 v2.1.0) × Follows st.old st.new result followed.old followed.new (λ s. links s v1.1.0 + links s v2.1.0) }
{
    let end1 = subst::forward_tvar(st, v1.1);
    let end2 = subst::forward_tvar(st, v2.1);
    let last_id1 = end1.tvar;
    let last_id2 = end2.tvar;
    *followed += end1.links + end2.links;
    let num_loc_1 = st.num_loc_at(last_id1);
    let num_loc_2 = st.num_loc_at(last_id2);
    let need1 = st.need_at(last_id1);
    let need2 = st.need_at(last_id2);
    let ty1 = type_of(st, v1.0, last_id1)?;
    let ty2 = type_of(st, v2.0, last_id2)?;
    let e1 = End {
        loc: v1.0,
        last_id: last_id1,
        num_loc: num_loc_1,
        need: need1,
        ty: ty1,
    };
    let e2 = End {
        loc: v2.0,
        last_id: last_id2,
        num_loc: num_loc_2,
        need: need2,
        ty: ty2,
    };
    open_ends(st, e1, e2)
}

// An operand's type as an error shows it: the variable where it is `_`.
fn shown(st: &mut State<'_>, ty: u32, id: TVar) -> Result<u32, Stop>
    requires { ty < st.old.used.nodes }
    ensures { Did st.old st.new result (λ s. shown s ty id.0) }
{
    let n = st.node_at(ty);
    if shapes::is_anything(n.shape) {
        st.push_node(n.loc, Shape::Var(id))
    } else {
        Ok(ty)
    }
}

// The numeric check failed.
fn show_both(st: &mut State<'_>, ty1: u32, id1: TVar, ty2: u32, id2: TVar) -> Result<u32, Stop>
    requires { (ty1 < st.old.used.nodes) × (ty2 < st.old.used.nodes) }
    ensures { Did st.old st.new result (λ s. show_both s ty1 id1.0 ty2 id2.0) }
{
    let shown1 = shown(st, ty1, id1)?;
    let shown2 = shown(st, ty2, id2)?;
    Err(Stop::Failed(TypingError::Incompatible(shown1, shown2)))
}

// After the inner join: the fresh variable takes the joined type.
pub fn close_tvar(
    st: &mut State<'_>,
    v1: VarAt,
    v2: VarAt,
    m: Merging,
    new_ty: u32,
) -> Result<u32, Stop>
    requires { (m.ty1 < st.old.used.nodes) × ((m.ty2 < st.old.used.nodes) × ((m.var2 < st.old.used.nodes) × (new_ty < st.old.used.nodes))) }
    ensures { Did st.old st.new result (λ s. close_tvar s m.ty1 v1.1.0 m.ty2 v2.0 v2.1.0 m.new_tvar.0 m.var2 new_ty) }
{
    if let Some(t) = st.bound_at(m.new_tvar) {
        let n = st.node_at(t);
        return Err(Stop::Failed(TypingError::RecursiveType(n.loc)));
    }
    match subst::join_bind_tvar(st, m.new_tvar, new_ty) {
        Ok(()) => Ok(m.var2),
        Err(BindError::NotNumeric) => show_both(st, m.ty1, v1.1, m.ty2, v2.1),
        Err(BindError::Recursive) => Err(Stop::Failed(TypingError::RecursiveType(v2.0))),
    }
}

// The variable at node `var`, not bound, takes the other type.
fn join_unbound(
    st: &mut State<'_>,
    lhs: u32,
    rhs: u32,
    var: u32,
    id: TVar,
    other: u32,
) -> Result<(), Stop>
    requires { (lhs < st.old.used.nodes) × ((rhs < st.old.used.nodes) × ((var < st.old.used.nodes) × (other < st.old.used.nodes))) }
    ensures { Did st.old st.new (number_by (λ x. var) result) (λ s. join_unbound s lhs rhs var id.0 other) }
{
    let n = st.node_at(var);
    match subst::join_bind_tvar(st, id, other) {
        Ok(()) => Ok(()),
        Err(BindError::NotNumeric) => Err(Stop::Failed(TypingError::Incompatible(lhs, rhs))),
        Err(BindError::Recursive) => Err(Stop::Failed(TypingError::RecursiveType(n.loc))),
    }
}

// The variable at node `var` meets another type. Not bound, it takes the type, and the answer is `var`: None; else a fresh
// variable takes it, to merge with.
pub fn meet_tvar(
    st: &mut State<'_>,
    lhs: u32,
    rhs: u32,
    var: u32,
    id: TVar,
    other: u32,
) -> Result<Option<TVar>, Stop>
    requires { (lhs < st.old.used.nodes) × ((rhs < st.old.used.nodes) × ((var < st.old.used.nodes) × (other < st.old.used.nodes))) }
    ensures { Meets st.old st.new var result (λ s k. meet_tvar k s lhs rhs var id.0 other) }
{
    if st.bound_at(id).is_none() {
        join_unbound(st, lhs, rhs, var, id, other)?;
        return Ok(None);
    }
    let new_tvar = st.take_var()?;
    st.bind_var(new_tvar, other);
    Ok(Some(new_tvar))
}
