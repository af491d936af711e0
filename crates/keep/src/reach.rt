// What is reached from the listed variables and from the constraints.

ghost use Rattle.std.specs.Prelude.{◌≡◌, List, ℕ, ◌≤◌, ◌<◌, length, get_or, take};
ghost use Rattle.definition.specs.Types.{State as DState};
ghost use Rattle.definition.specs.Keep.{a_node, a_variable, constraint_type};
ghost use Rattle.table.specs.State.{constraint_of};
ghost use Rattle.table.specs.Did.{tables};
ghost use Rattle.keep.specs.Marked.{thing_of, constraint_node, Fits, MarksAll, Before, Next, InTables, Reaching, Draining, Stays};

use crate::marks::{Marks, Thing};
use names::TVar;
use table::Constraint;
use table::read::ReadState;
use table::state::State;

// The node that a constraint is on.
#[tactic(auto, unfolding(definition::specs::Keep::constraint_type))]
fn type_on(c: Constraint) -> u32
    ensures { result ≡ constraint_type (constraint_of c) }
{
    match c {
        Constraint::Ability(_, ty, _) => ty,
        Constraint::Numeric(_, ty) => ty,
        Constraint::Bits(_, ty) => ty,
        Constraint::Ordered(_, ty) => ty,
        Constraint::BaseType(_, ty) => ty,
        Constraint::SingleType(_, ty) => ty,
    }
}

fn mark_nodes(m: &mut Marks, nodes: &[u32])
    requires { Fits m.old × ((k : ℕ) → k < length nodes.now → get_or nodes.now k 0 < 2048) }
    ensures { MarksAll (Before (λ k. a_node (get_or nodes.now k 0)) (length nodes.now)) m.old m.new }
{
    for i in 0..nodes.len() {
        m.mark_node(nodes[i]);
    }
}

// The first n of these variables.
fn mark_vars(m: &mut Marks, vars: &[u16], n: usize)
    requires { Fits m.old × ((n ≤ length vars.now) × ((k : ℕ) → k < n → get_or vars.now k 0 < 1024)) }
    ensures { MarksAll (Before (λ k. a_variable (get_or vars.now k 0)) n) m.old m.new }
{
    for i in 0..n {
        m.mark_var(TVar(vars[i]));
    }
}

// Refused (must-fail/): the first one forgotten (constraint_forgotten).
fn mark_constraints(st: &State<'_>, m: &mut Marks)
    requires { Fits m.old × Reaching (tables st.now) }
    ensures { MarksAll (Before (constraint_node (tables st.now)) st.now.used.constraints) m.old m.new }
{
    for i in 0..st.used.constraints {
        m.mark_node(type_on(st.constraint_at(i)));
    }
}

// What node t reaches at once.
fn mark_parts(st: &State<'_>, m: &mut Marks, t: u32)
    requires { Fits m.old × (Reaching (tables st.now) × (t < st.now.used.nodes)) }
    ensures { MarksAll (Next (tables st.now) (a_node t)) m.old m.new }
{
    let n = st.node_at(t);
    if let Some(v) = shapes::as_var(n.shape) {
        m.mark_var(v);
    }
    mark_nodes(m, st.parts_of(t, n));
}

// What x reaches at once. Refused: a mark's location in the binding's place (binding_not_followed).
fn mark_next(st: &State<'_>, m: &mut Marks, x: Thing)
    requires { Fits m.old × (Reaching (tables st.now) × InTables (tables st.now) (thing_of x)) }
    ensures { MarksAll (Next (tables st.now) (thing_of x)) m.old m.new }
{
    match x {
        Thing::Node(t) => mark_parts(st, m, t),
        Thing::Var(v) => {
            if let Some(t) = st.bound_at(v) {
                m.mark_node(t);
            }
        }
    }
}

// Whatever is marked is looked into, and what that marks.
fn mark_reached(st: &State<'_>, m: &mut Marks)
    ghost listed: { List ℕ }
    requires { Reaching (tables st.now) × Draining (tables st.now) listed m.old }
    ensures { Draining (tables st.now) listed m.new × (m.new.many ≡ 0) }
{
    for _step in 0..3072_u32 {
        let Some(x) = m.pop() else {
            return;
        };
        mark_next(st, m, x);
    }
}

// What stays where the first n of these variables are listed.
pub fn staying(st: &State<'_>, vars: &[u16], n: usize) -> Marks
    ghost listed: { List ℕ }
    requires is { listed ≡ take n vars.now }
    requires fits { Reaching (tables st.now) × ((n ≤ length vars.now) × ((k : ℕ) → k < n → get_or vars.now k 0 < st.now.used.vars)) }
    ensures { Stays (tables st.now) listed result }
{
    let mut m = Marks::new();
    mark_vars(&mut m, vars, n);
    mark_constraints(st, &mut m);
    mark_reached(st, &mut m);
    m
}
