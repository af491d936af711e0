// typing/core.rs, slowly: ready_tvars. It builds, as the Rust does; the main engine's `ready` only writes what would be built.
// Changed from the source that NOTICE names: ported to Rattle.
#![tactic(auto)]

ghost use Rattle.std.specs.Prelude.{◌≡◌, List, ◌≤◌, ◌<◌, length, get_or, take};
ghost use Rattle.definition.specs.Types as d;
ghost use Rattle.definition.specs.Store.{type_at};
ghost use Rattle.definition.specs.Subst.{parts, reaches_itself, ready, ready_tvars};
ghost use Rattle.table.specs.State.{Parts};
ghost use Rattle.table.specs.Did.{held, Did};
ghost use Rattle.ends.specs.Itself.{Goes_on, Levels, Measured};
ghost use Rattle.ends.specs.Leads.{LedTo};
ghost use Rattle.history.specs.Past.{as_rows, Within};
ghost use Rattle.old_ready.specs.Ready.{Lands, HasParts, rebuilt_at, by_parts_at};

use ends::Led;
use history::Past;
use names::TVar;
use refusals::Refusal;
use table::state::{State, Stop};
use table::{Shape, WORDS};

// Where the bound variables from a type on lead: to a node with its parts and the calls that are left; or to an open variable.
#[derive(Clone, Copy)]
enum Landing {
    Parts { node: u32, many: u32, calls: u32 },
    Open { loc: u32, end: TVar },
}

// ---- a type that reaches a variable that reaches itself

// unfold_type, and what it leaves open.
fn lead(past: &Past<'_>, t: u32) -> Led
    requires { t < past.now.st.used.nodes }
    ensures { LedTo (as_rows past.now) t result }
{
    let n = past.node_at(t);
    let Some(v) = shapes::as_var(n.shape) else {
        return Led::Node(t);
    };
    let end = old_subst::forward_tvar(past, v);
    match past.bound_at(end) {
        None => Led::Open { loc: n.loc, end },
        Some(x) => Led::Node(x),
    }
}

// The shape that reading node t goes on with.
fn goes_on(past: &Past<'_>, t: u32) -> Shape
    requires { t < past.now.st.used.nodes }
    ensures { Goes_on (as_rows past.now) t result }
{
    match lead(past, t) {
        Led::Node(x) => past.node_at(x).shape,
        Led::Open { .. } => Shape::Anything,
    }
}

// In how many levels reading node t is over; none if not in `left`. A node's answer is noted, so that each is read once: a table by node, none by variable.
fn levels(past: &Past<'_>, t: u32, left: u32, heights: &mut [u16]) -> Option<u32>
    requires { (t < past.now.st.used.nodes) × ((left ≤ past.now.st.used.nodes) × Measured (as_rows past.now) heights.old) }
    ensures { Levels (as_rows past.now) t left result × Measured (as_rows past.now) heights.new }
{
    let below = left.checked_sub(1)?;
    let known = heights[t as usize];
    if 0 < known {
        return Some(u32::from(known));
    }
    let s = goes_on(past, t);
    let mut high: u32 = 0;
    for i in 0..shapes::part_count(s) {
        let p = past.part_at(s, i);
        let n = levels(past, p, below, heights)?;
        high = high.max(n);
    }
    if past.st.used.nodes <= high {
        return None;
    }
    heights[t as usize] = (high + 1) as u16;
    Some(high + 1)
}

// Not inlined, so that the table is in no frame of the run.
#[inline(never)]
fn reaches_itself(past: &Past<'_>, t: u32) -> bool
    requires { t < past.now.st.used.nodes }
    ensures { (ds : List d.Struct) → result ≡ reaches_itself (held (as_rows past.now) ds) t }
{
    let mut heights: [u16; 2048] = [0; 2048];
    levels(past, t, past.st.used.nodes, &mut heights).is_none()
}

// ---- ready_tvars

// A call for each bound variable on the way.
fn land(past: &Past<'_>, t: u32, left: u32) -> Result<Landing, Stop>
    requires { t < past.now.st.used.nodes }
    ensures { Lands (as_rows past.now) t left result }
{
    let mut node = t;
    for calls in (0..left).rev() {
        let n = past.node_at(node);
        let Some(v) = shapes::as_var(n.shape) else {
            let many = shapes::part_count(n.shape);
            return Ok(Landing::Parts { node, many, calls });
        };
        let end = old_subst::forward_tvar(past, v);
        match past.bound_at(end) {
            None => return Ok(Landing::Open { loc: n.loc, end }),
            Some(x) => node = x,
        }
    }
    Err(Stop::Refused(Refusal::RunsIntoItself))
}

// Part i of node t.
fn part_of(past: &Past<'_>, t: u32, i: u32) -> u32
    requires { t < past.now.st.used.nodes }
    ensures { (ds : List d.Struct) → i < length (parts (type_at (held (as_rows past.now) ds) t)) → result ≡ get_or (parts (type_at (held (as_rows past.now) ds) t)) i 0 }
{
    let n = past.node_at(t);
    past.part_at(n.shape, i)
}

// Node t anew, with these parts; a type without parts and without a name stays.
fn rebuild(past: &mut Past<'_>, t: u32, tys: [u32; 8], many: u32) -> Result<u32, Stop>
    requires { (t < past.old.st.used.nodes) × (HasParts (as_rows past.old) t many × Parts past.old.st.used.nodes tys many) }
    ensures { Did (as_rows past.old) (as_rows past.new) result (λ s. rebuilt_at s t (take many tys)) × Within past.old past.new }
{
    let n = past.node_at(t);
    match n.shape {
        Shape::Ref(m, _) => past.push_node(n.loc, Shape::Ref(m, tys[0])),
        Shape::Apply(a) => past.push_apply(n.loc, a.k, a.n, tys, many),
        _ => Ok(t),
    }
}

// The parts of node t, one after the other; then the node. The call for a part is the only one that a level waits for.
#[cycle(ready_ready_types)]
fn ready_types(past: &mut Past<'_>, t: u32, many: u32, left: u32) -> Result<u32, Stop>
    requires { (t < past.old.st.used.nodes) × HasParts (as_rows past.old) t many }
    ensures { Did (as_rows past.old) (as_rows past.new) result (λ s. by_parts_at (λ s t. ready left s t) s t) × Within past.old past.new }
{
    let mut tys: [u32; 8] = [0; 8];
    for i in 0..many {
        let p = part_of(past, t, i);
        tys[i as usize] = ready(past, p, left)?;
    }
    rebuild(past, t, tys, many)
}

// ready_tvars, at most `left` calls deep.
#[cycle(ready_ready_types)]
fn ready(past: &mut Past<'_>, t: u32, left: u32) -> Result<u32, Stop>
    requires { t < past.old.st.used.nodes }
    ensures { Did (as_rows past.old) (as_rows past.new) result (λ s. ready left s t) × Within past.old past.new }
{
    match land(past, t, left)? {
        Landing::Parts { node, many, calls } => ready_types(past, node, many, calls),
        Landing::Open { loc, end } => past.push_node(loc, Shape::Var(end)),
    }
}

// Twice as many calls as there are nodes: one for each level, and one more for a bound variable.
fn ready_past(past: &mut Past<'_>, t: u32) -> Result<u32, Stop>
    requires { t < past.old.st.used.nodes }
    ensures { Did (as_rows past.old) (as_rows past.new) result (λ s. ready_tvars s t) × Within past.old past.new }
{
    if reaches_itself(past, t) {
        return Err(Stop::Refused(Refusal::RunsIntoItself));
    }
    let calls = past.st.used.nodes * 2;
    ready(past, t, calls)
}

// .. of a state in words. No variable is bound: the rows are written as they were.
pub fn ready_tvars(st: &mut State<'_>, t: u32) -> Result<u32, Stop>
    requires { t < st.old.used.nodes }
    ensures { Did st.old st.new result (λ s. ready_tvars s t) }
{
    let mut words = [0u32; WORDS];
    let mut past = Past::start(st, &mut words);
    let out = ready_past(&mut past, t);
    past.store(st);
    out
}
