// typing/core.rs, slowly: chain ends, unfolding, the numeric check, binding. Beside `subst`, which the occurs walk is from: it follows no binding.
// Changed from the source that NOTICE names: ported to Rattle.
#![tactic(auto)]

ghost use Rattle.std.specs.Prelude.{◌≡◌, List, ◌<◌};
ghost use Rattle.definition.specs.Types as d;
ghost use Rattle.definition.specs.Store.{type_at, spanned};
ghost use Rattle.definition.specs.Subst.{next_of, forward_tvar};
ghost use Rattle.definition.specs.Join.{is_num_var, num_shape, check_num_tvar', check_num_tvar};
ghost use Rattle.table.specs.Did.{held};
ghost use Rattle.shapes.specs.Parts.{next};
ghost use Rattle.subst.specs.Answers.{Unfolds, Binds};
ghost use Rattle.history.specs.Past.{as_rows, Spare, Spends};

use history::Past;
use names::TVar;
use subst::{BindError, Occurs, Unfolded};

// ---- forward_tvar

// The variable that cur is bound to, if that is what it is bound to.
fn next_of(past: &Past<'_>, cur: TVar) -> Option<TVar>
    ensures { (ds : List d.Struct) → next result ≡ next_of (held (as_rows past.now) ds) cur.0 }
{
    let t = past.bound_at(cur)?;
    shapes::as_var(past.node_at(t).shape)
}

// The variable at the end of the chain from id.
pub fn forward_tvar(past: &Past<'_>, id: TVar) -> TVar
    ensures { (ds : List d.Struct) → result.0 ≡ forward_tvar (held (as_rows past.now) ds) id.0 }
{
    let mut cur = id;
    for _link in 0..past.st.used.vars {
        let Some(v) = next_of(past, cur) else {
            return cur;
        };
        cur = v;
    }
    cur
}

// ---- unfold_type

// Of a variable, the type at its end; of any other type, itself.
pub fn unfold_type(past: &Past<'_>, t: u32) -> Unfolded
    requires { t < past.now.st.used.nodes }
    ensures { Unfolds (as_rows past.now) result (λ s. spanned s t) }
{
    let n = past.node_at(t);
    let Some(v) = shapes::as_var(n.shape) else {
        return Unfolded::Node(t);
    };
    match past.bound_at(forward_tvar(past, v)) {
        None => Unfolded::Anything(n.loc),
        Some(inner) => Unfolded::Node(inner),
    }
}

// ---- check_num_tvar

fn is_num_var(past: &Past<'_>, v: TVar) -> bool
    ensures { (ds : List d.Struct) → result ≡ is_num_var (held (as_rows past.now) ds) v.0 }
{
    past.num_loc_at(v).is_some()
}

fn num_node(past: &Past<'_>, need: u32, t: u32) -> bool
    ensures { (ds : List d.Struct) → result ≡ num_shape need (type_at (held (as_rows past.now) ds) t) }
{
    shapes::num_shape(need, past.node_at(t).shape)
}

// check_num_tvar_, of a type with so many bits: a variable is followed to its end first.
fn check_num_type(past: &Past<'_>, need: u32, ty: u32) -> bool
    ensures { (ds : List d.Struct) → result ≡ check_num_tvar' (held (as_rows past.now) ds) need ty }
{
    let n = past.node_at(ty);
    match shapes::as_var(n.shape) {
        None => shapes::num_shape(need, n.shape),
        Some(v) => {
            let last = forward_tvar(past, v);
            match past.bound_at(last) {
                None => is_num_var(past, last),
                Some(t) => num_node(past, need, t),
            }
        }
    }
}

// A variable without a numeric mark takes any type, one with a mark an integer type that has the bits it needs.
fn check_num_tvar(past: &Past<'_>, tvar: TVar, ty: u32) -> bool
    ensures { (ds : List d.Struct) → result ≡ check_num_tvar (held (as_rows past.now) ds) tvar.0 ty }
{
    !is_num_var(past, tvar) || check_num_type(past, past.need_at(tvar), ty)
}

// ---- join_bind_tvar

// Binds tvar to ty. `_` succeeds and stores no binding.
pub fn join_bind_tvar(past: &mut Past<'_>, tvar: TVar, ty: u32) -> Result<(), BindError>
    requires { (ty < past.old.st.used.nodes) × Spare past.old tvar.0 }
    ensures { Binds (as_rows past.old) (as_rows past.new) result tvar.0 ty × Spends past.old past.new tvar.0 }
{
    if !check_num_tvar(past, tvar, ty) {
        return Err(BindError::NotNumeric);
    }
    if let Occurs::Met(_) = subst::used_tvars(&past.st, tvar, ty) {
        return Err(BindError::Recursive);
    }
    let n = past.node_at(ty);
    if !shapes::is_anything(n.shape) {
        past.bind_var(tvar, ty);
    }
    Ok(())
}
