// typing/core.rs, slowly: the variable merge around its inner join, and a variable that meets another type. Beside `merge`.
// Changed from the source that NOTICE names: ported to Rattle.
#![tactic(auto)]

ghost use Rattle.std.specs.Prelude.{◌≡◌, None, ◌<◌};
ghost use Rattle.definition.specs.Store.{get};
ghost use Rattle.definition.specs.Join.{type_of, merge_num, larger, shown, join_unbound};
ghost use Rattle.table.specs.Did.{tables, Did, Kept, number_by};
ghost use Rattle.merge.specs.Merge.{open_ends, open_tvar, show_both, close_tvar, meet_tvar, Opens, Meets};
ghost use Rattle.history.specs.Past.{as_rows, marks_reach, Within, Marks};

use history::Past;
use merge::{Merging, VarAt};
use names::TVar;
use old_subst::{forward_tvar, join_bind_tvar};
use subst::BindError;
use table::state::Stop;
use table::{Shape, TypingError};

// The end of a chain that began with a variable at `loc`: the last variable, its numeric mark (location and need) and its type.
#[derive(Clone, Copy)]
struct End {
    loc: u32,
    last_id: TVar,
    num_loc: Option<u32>,
    need: u32,
    ty: u32,
}

// The type of a chain's end: a new `_` where it is not bound.
fn type_of(past: &mut Past<'_>, loc: u32, id: TVar) -> Result<u32, Stop>
    ensures { Did (as_rows past.old) (as_rows past.new) result (λ s. type_of s loc id.0) × Within past.old past.new }
{
    match past.bound_at(id) {
        None => past.push_node(loc, Shape::Anything),
        Some(t) => Ok(t),
    }
}

// The fresh variable is numeric if either end is, and needs so many bits; the second's location wins.
fn merge_num(
    past: &mut Past<'_>,
    num_loc_1: Option<u32>,
    num_loc_2: Option<u32>,
    need: u32,
    new_tvar: TVar,
)
    requires { (get (tables (as_rows past.old)) new_tvar.0 ≡ None) × (marks_reach past.old < 2048) }
    ensures { Kept (as_rows past.old) (as_rows past.new) (λ s. merge_num s num_loc_1 num_loc_2 need new_tvar.0) × Marks past.old past.new }
{
    if let Some(nloc) = num_loc_2.or(num_loc_1) {
        past.mark_var(new_tvar, nloc, need);
    }
}

// Both ends are bound to a fresh variable, which needs what either does.
fn open_ends(past: &mut Past<'_>, e1: End, e2: End) -> Result<Merging, Stop>
    requires { (e1.ty < past.old.st.used.nodes) × (e2.ty < past.old.st.used.nodes) }
    ensures { Opens (as_rows past.old) (as_rows past.new) result (λ s k. open_ends k s e1.loc e1.last_id.0 e1.num_loc e1.ty e2.loc e2.last_id.0 e2.num_loc e2.ty (larger e1.need e2.need)) × Within past.old past.new }
{
    let new_tvar = past.take_var()?;
    let need = e1.need.max(e2.need);
    merge_num(past, e1.num_loc, e2.num_loc, need, new_tvar);
    let var1 = past.push_node(e1.loc, Shape::Var(new_tvar))?;
    let var2 = past.push_node(e2.loc, Shape::Var(new_tvar))?;
    past.bind_var(e1.last_id, var1);
    past.bind_var(e2.last_id, var2);
    Ok(Merging {
        ty1: e1.ty,
        ty2: e2.ty,
        new_tvar,
        var2,
    })
}

// The ends of both chains, with their types and numeric marks.
pub fn open_tvar(past: &mut Past<'_>, v1: VarAt, v2: VarAt) -> Result<Merging, Stop>
    ensures { Opens (as_rows past.old) (as_rows past.new) result (λ s k. open_tvar k s v1.0 v1.1.0 v2.0 v2.1.0) × Within past.old past.new }
{
    let last_id1 = forward_tvar(past, v1.1);
    let last_id2 = forward_tvar(past, v2.1);
    let num_loc_1 = past.num_loc_at(last_id1);
    let num_loc_2 = past.num_loc_at(last_id2);
    let need1 = past.need_at(last_id1);
    let need2 = past.need_at(last_id2);
    let ty1 = type_of(past, v1.0, last_id1)?;
    let ty2 = type_of(past, v2.0, last_id2)?;
    let e1 = End {
        loc: v1.0,
        last_id: last_id1,
        num_loc: num_loc_1,
        need: need1,
        ty: ty1,
    };
    let e2 = End {
        loc: v2.0,
        last_id: last_id2,
        num_loc: num_loc_2,
        need: need2,
        ty: ty2,
    };
    open_ends(past, e1, e2)
}

// An operand's type as an error shows it: the variable where it is `_`.
fn shown(past: &mut Past<'_>, ty: u32, id: TVar) -> Result<u32, Stop>
    requires { ty < past.old.st.used.nodes }
    ensures { Did (as_rows past.old) (as_rows past.new) result (λ s. shown s ty id.0) × Within past.old past.new }
{
    let n = past.node_at(ty);
    if shapes::is_anything(n.shape) {
        past.push_node(n.loc, Shape::Var(id))
    } else {
        Ok(ty)
    }
}

// The numeric check failed.
fn show_both(past: &mut Past<'_>, ty1: u32, id1: TVar, ty2: u32, id2: TVar) -> Result<u32, Stop>
    requires { (ty1 < past.old.st.used.nodes) × (ty2 < past.old.st.used.nodes) }
    ensures { Did (as_rows past.old) (as_rows past.new) result (λ s. show_both s ty1 id1.0 ty2 id2.0) × Within past.old past.new }
{
    let shown1 = shown(past, ty1, id1)?;
    let shown2 = shown(past, ty2, id2)?;
    Err(Stop::Failed(TypingError::Incompatible(shown1, shown2)))
}

// After the inner join: the fresh variable takes the joined type.
pub fn close_tvar(
    past: &mut Past<'_>,
    v1: VarAt,
    v2: VarAt,
    m: Merging,
    new_ty: u32,
) -> Result<u32, Stop>
    requires { (m.ty1 < past.old.st.used.nodes) × ((m.ty2 < past.old.st.used.nodes) × ((m.var2 < past.old.st.used.nodes) × (new_ty < past.old.st.used.nodes))) }
    ensures { Did (as_rows past.old) (as_rows past.new) result (λ s. close_tvar s m.ty1 v1.1.0 m.ty2 v2.0 v2.1.0 m.new_tvar.0 m.var2 new_ty) × Within past.old past.new }
{
    if let Some(t) = past.bound_at(m.new_tvar) {
        let n = past.node_at(t);
        return Err(Stop::Failed(TypingError::RecursiveType(n.loc)));
    }
    match join_bind_tvar(past, m.new_tvar, new_ty) {
        Ok(()) => Ok(m.var2),
        Err(BindError::NotNumeric) => show_both(past, m.ty1, v1.1, m.ty2, v2.1),
        Err(BindError::Recursive) => Err(Stop::Failed(TypingError::RecursiveType(v2.0))),
    }
}

// The variable at node `var`, not bound, takes the other type.
fn join_unbound(
    past: &mut Past<'_>,
    lhs: u32,
    rhs: u32,
    var: u32,
    id: TVar,
    other: u32,
) -> Result<(), Stop>
    requires { (lhs < past.old.st.used.nodes) × ((rhs < past.old.st.used.nodes) × ((var < past.old.st.used.nodes) × ((other < past.old.st.used.nodes) × (get (tables (as_rows past.old)) id.0 ≡ None)))) }
    ensures { Did (as_rows past.old) (as_rows past.new) (number_by (λ x. var) result) (λ s. join_unbound s lhs rhs var id.0 other) × Within past.old past.new }
{
    let n = past.node_at(var);
    match join_bind_tvar(past, id, other) {
        Ok(()) => Ok(()),
        Err(BindError::NotNumeric) => Err(Stop::Failed(TypingError::Incompatible(lhs, rhs))),
        Err(BindError::Recursive) => Err(Stop::Failed(TypingError::RecursiveType(n.loc))),
    }
}

// The variable at node `var` meets another type. Not bound, it takes the type, and the answer is `var`: None; else a fresh
// variable takes it, to merge with.
pub fn meet_tvar(
    past: &mut Past<'_>,
    lhs: u32,
    rhs: u32,
    var: u32,
    id: TVar,
    other: u32,
) -> Result<Option<TVar>, Stop>
    requires { (lhs < past.old.st.used.nodes) × ((rhs < past.old.st.used.nodes) × ((var < past.old.st.used.nodes) × (other < past.old.st.used.nodes))) }
    ensures { Meets (as_rows past.old) (as_rows past.new) var result (λ s k. meet_tvar k s lhs rhs var id.0 other) × Within past.old past.new }
{
    if past.bound_at(id).is_none() {
        join_unbound(past, lhs, rhs, var, id, other)?;
        return Ok(None);
    }
    let new_tvar = past.take_var()?;
    past.bind_var(new_tvar, other);
    Ok(Some(new_tvar))
}
