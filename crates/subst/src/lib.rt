// typing/core.rs: chain ends, unfolding, numeric marks, the numeric check, the occurs walk, binding.
// Changed from the source that NOTICE names: ported to Rattle.
#![tactic(auto)]

ghost use Rattle.std.specs.Prelude.{◌≡◌, List, ℕ, ◌<◌};
ghost use Rattle.definition.specs.Types as d;
ghost use Rattle.definition.specs.Store.{type_at, spanned};
ghost use Rattle.definition.specs.Subst.{next_of, forward_tvar, links_of, set_num_var};
ghost use Rattle.definition.specs.Join.{is_num_var, num_shape, check_num_tvar', check_num_tvar};
ghost use Rattle.definition.specs.Spelled.{cut};
ghost use Rattle.table.specs.Did.{held, Kept};
ghost use Rattle.shapes.specs.Parts.{next};
ghost use Rattle.subst.specs.Answers.{Forwards, Unfolds, var_at, Looked, SoonLooked, Counted, Binds};

use names::TVar;
use table::read::ReadState;
use table::state::State;

// Why a variable is not bound: the numeric check failed, or the variable occurs in the type.
#[derive(Clone, Copy)]
pub enum BindError {
    NotNumeric,
    Recursive,
}

// What a type unfolds to: a node, or `_` at a location, which stands in no table.
#[derive(Clone, Copy)]
pub enum Unfolded {
    Node(u32),
    Anything(u32),
}

// ---- forward_tvar

// The end of a chain, and how many bindings lead there, from variable to variable.
#[derive(Clone, Copy)]
pub struct End {
    pub tvar: TVar,
    pub links: u32,
}

// The variable that cur is bound to, if that is what it is bound to.
pub fn next_of<S: ReadState>(st: &S, cur: TVar) -> Option<TVar>
    ensures { (ds : List d.Struct) → next result ≡ next_of (held (S.state st.now) ds) cur.0 }
{
    let t = st.bound_at(cur)?;
    shapes::as_var(st.node_at(t).shape)
}

// The variable at the end of the chain from id, and the links that were followed.
pub fn forward_tvar<S: ReadState>(st: &S, id: TVar) -> End
    ensures { Forwards (S.state st.now) result id.0 }
{
    let mut cur = id;
    let mut links: u32 = 0;
    for _link in 0..st.used().vars {
        let Some(v) = next_of(st, cur) else {
            return End { tvar: cur, links };
        };
        cur = v;
        links += 1;
    }
    End { tvar: cur, links }
}

// ---- unfold_type

// The type at the end of a chain, at the location loc.
pub fn unfold_end<S: ReadState>(st: &S, loc: u32, last: TVar) -> Unfolded
    ensures { (v : ℕ) → ((ds : List d.Struct) → last.0 ≡ forward_tvar (held (S.state st.now) ds) v) → Unfolds (S.state st.now) result (λ s. var_at loc v) }
{
    match st.bound_at(last) {
        None => Unfolded::Anything(loc),
        Some(t) => Unfolded::Node(t),
    }
}

// The type of the variable v, at the location loc.
pub fn unfold_tvar<S: ReadState>(st: &S, loc: u32, v: TVar) -> Unfolded
    ensures { Unfolds (S.state st.now) result (λ s. var_at loc v.0) }
{
    let end = forward_tvar(st, v);
    unfold_end(st, loc, end.tvar)
}

// Of a variable, the type at its end; of any other type, itself.
pub fn unfold_type<S: ReadState>(st: &S, t: u32) -> Unfolded
    requires { t < (S.state st.now).used.nodes }
    ensures { Unfolds (S.state st.now) result (λ s. spanned s t) }
{
    let n = st.node_at(t);
    match shapes::as_var(n.shape) {
        None => Unfolded::Node(t),
        Some(v) => unfold_tvar(st, n.loc, v),
    }
}

// How many links unfold_type follows.
pub fn unfold_links<S: ReadState>(st: &S, t: u32) -> u32
    ensures { (ds : List d.Struct) → result ≡ links_of (held (S.state st.now) ds) t }
{
    let n = st.node_at(t);
    match shapes::as_var(n.shape) {
        None => 0,
        Some(v) => forward_tvar(st, v).links,
    }
}

// ---- Subst::set_num_var

// Marks tvar numeric, and so on along its chain. A mark that is there stays.
pub fn set_num_var(st: &mut State<'_>, tvar: TVar, loc: u32)
    ensures { Kept st.old st.new (λ s. set_num_var s tvar.0 loc) }
{
    let mut cur = tvar;
    for _mark in 0..st.used.vars {
        let n = next_of(st, cur);
        st.mark_one(cur, loc);
        let Some(v) = n else {
            return;
        };
        cur = v;
    }
}

// ---- check_num_tvar

fn is_num_var<S: ReadState>(st: &S, v: TVar) -> bool
    ensures { (ds : List d.Struct) → result ≡ is_num_var (held (S.state st.now) ds) v.0 }
{
    st.num_loc_at(v).is_some()
}

fn num_node<S: ReadState>(st: &S, need: u32, t: u32) -> bool
    ensures { (ds : List d.Struct) → result ≡ num_shape need (type_at (held (S.state st.now) ds) t) }
{
    shapes::num_shape(need, st.node_at(t).shape)
}

// check_num_tvar_, of a type with so many bits: a variable is followed to its end first.
fn check_num_type<S: ReadState>(st: &S, need: u32, ty: u32) -> bool
    ensures { (ds : List d.Struct) → result ≡ check_num_tvar' (held (S.state st.now) ds) need ty }
{
    let n = st.node_at(ty);
    match shapes::as_var(n.shape) {
        None => shapes::num_shape(need, n.shape),
        Some(v) => {
            let last = forward_tvar(st, v).tvar;
            match st.bound_at(last) {
                None => is_num_var(st, last),
                Some(t) => num_node(st, need, t),
            }
        }
    }
}

// A variable without a numeric mark takes any type, one with a mark an integer type that has the bits it needs.
pub fn check_num_tvar<S: ReadState>(st: &S, tvar: TVar, ty: u32) -> bool
    ensures { (ds : List d.Struct) → result ≡ check_num_tvar (held (S.state st.now) ds) tvar.0 ty }
{
    !is_num_var(st, tvar) || check_num_type(st, st.need_at(tvar), ty)
}

// ---- the occurs walk

// Whether the variable was met, and how many parts of the type's spelling were looked at, at most 4,096.
#[derive(Clone, Copy)]
pub enum Occurs {
    Met(u32),
    Clear(u32),
}

const MAX_LOOKED: u32 = 4096;

fn cut(n: u32) -> u32
    ensures { result ≡ cut n }
{
    n.min(MAX_LOOKED)
}

// Down into the parts of node t from the left, up to the first tvar, following no binding. A node without tvar gets its number of parts, so each is entered once.
// For speed, since a node may be looked at once for each variable that a join binds: the parts lie side by side, a part's number is tested before the call, which many
// parts then do without, and what eight parts come to is cut once.
fn used_in<S: ReadState>(st: &S, tvar: TVar, t: u32, counts: &mut [u16]) -> Occurs
    requires { (t < (S.state st.now).used.nodes) × Counted (S.state st.now) tvar.0 counts.old }
    ensures { Looked (S.state st.now) tvar.0 t result × Counted (S.state st.now) tvar.0 counts.new }
{
    let n = st.node_at(t);
    if shapes::is_var(tvar, n.shape) {
        return Occurs::Met(1);
    }
    let parts = st.parts_of(t, n);
    let mut looked: u32 = 1;
    for i in 0..parts.len() {
        let p = parts[i];
        let known = counts[p as usize];
        if 0 < known {
            looked += u32::from(known);
            continue;
        }
        match used_in(st, tvar, p, counts) {
            Occurs::Met(n) => return Occurs::Met(cut(looked + n)),
            Occurs::Clear(n) => looked += n,
        }
    }
    let number = cut(looked);
    // By `as`: it is at most 4,096, and `try_from` would need an arm for what cannot be.
    counts[t as usize] = number as u16;
    Occurs::Clear(number)
}

// So many parts are looked at without a table first.
const BUDGET: u32 = 64;

// What is left of a budget of parts where the variable is met, or where all parts are looked at; `Later` if the budget does not do.
enum Soon {
    Met(u32),
    Clear(u32),
    Later,
}

// The walk without a table, which ends once `budget` parts are looked at.
fn soon_used<S: ReadState>(st: &S, tvar: TVar, t: u32, budget: u32) -> Soon
    requires { t < (S.state st.now).used.nodes }
    ensures { SoonLooked (S.state st.now) tvar.0 t budget result }
{
    let Some(left) = budget.checked_sub(1) else {
        return Soon::Later;
    };
    let s = st.node_at(t).shape;
    if shapes::is_var(tvar, s) {
        return Soon::Met(left);
    }
    let mut rest = left;
    for i in 0..shapes::part_count(s) {
        let p = shapes::part_at(st, s, i);
        match soon_used(st, tvar, p, rest) {
            Soon::Clear(left) => rest = left,
            over => return over,
        }
    }
    Soon::Clear(rest)
}

// Not inlined, so that the table is in no frame of a join.
#[inline(never)]
fn used_with_counts<S: ReadState>(st: &S, tvar: TVar, ty: u32) -> Occurs
    requires { ty < (S.state st.now).used.nodes }
    ensures { Looked (S.state st.now) tvar.0 ty result }
{
    let mut counts = [0; 2048];
    used_in(st, tvar, ty, &mut counts)
}

// Whether used_tvars(ty) has tvar, and how many parts were looked at.
pub fn used_tvars<S: ReadState>(st: &S, tvar: TVar, ty: u32) -> Occurs
    requires { ty < (S.state st.now).used.nodes }
    ensures { Looked (S.state st.now) tvar.0 ty result }
{
    match soon_used(st, tvar, ty, BUDGET) {
        Soon::Met(rest) => Occurs::Met(BUDGET - rest),
        Soon::Clear(rest) => Occurs::Clear(BUDGET - rest),
        Soon::Later => used_with_counts(st, tvar, ty),
    }
}

// ---- join_bind_tvar

// Binds tvar to ty. `_` succeeds and stores no binding.
pub fn join_bind_tvar(st: &mut State<'_>, tvar: TVar, ty: u32) -> Result<(), BindError>
    requires { ty < st.old.used.nodes }
    ensures { Binds st.old st.new result tvar.0 ty }
{
    if !check_num_tvar(st, tvar, ty) {
        return Err(BindError::NotNumeric);
    }
    if let Occurs::Met(_) = used_tvars(st, tvar, ty) {
        return Err(BindError::Recursive);
    }
    let n = st.node_at(ty);
    if !shapes::is_anything(n.shape) {
        st.bind_var(tvar, ty);
    }
    Ok(())
}
