// typing/core.rs: ready_tvars.
// Changed from the source that NOTICE names: ported to Rattle. No node is made: what the type would be written as is told from the state as it is.
#![tactic(auto)]

ghost use Rattle.std.specs.Prelude.{◌≡◌, true, List, ℕ, ◌+◌, ◌≤◌, ◌<◌, length};
ghost use Rattle.definition.specs.Types as d;
ghost use Rattle.definition.specs.Subst.{ends_in};
ghost use Rattle.theorems.specs.ReadySpelled.{head_size, summed, spell_led, led_bytes, spell_ready};
ghost use Rattle.table.specs.Did.{held, tables};
ghost use Rattle.writer.specs.Bytes.{Wrote, AllBytes};
ghost use Rattle.canonical.specs.Named.{spelling_of, AllNumbered};
ghost use Rattle.ready.specs.Spell.{Owns, Small, added, SumsOf, Measures, Goes, Spells};

use canonical::{AsItStands, Heads, Names, Spelling};
use ends::{Chains, Led, note_ends};
use names::{MAX_ARGS, MAX_NODES};
use refusals::Refusal;
use table::Shape;
use table::read::ReadState;
use table::state::State;

const MAX_PAYLOAD: u32 = 4096;

// The first type, and one for each node and each place: a type of more would not fit.
const MAX_TYPES: u32 = 1 + MAX_NODES + MAX_ARGS;

// So many types are written, in so many bytes; they would take so many nodes and argument places.
#[derive(Clone, Copy)]
pub struct Sums {
    pub types: u32,
    pub bytes: u32,
    pub nodes: u32,
    pub places: u32,
}

// A type without its parts.
fn own(shape: Shape) -> Sums
    ensures { Owns shape result }
{
    let bytes = writer::head_size(shape);
    let (nodes, places) = match shape {
        Shape::Ref(_, _) => (1, 0),
        Shape::Apply(a) => (1, a.many),
        Shape::Var(_) => (1, 0),
        _ => (0, 0),
    };
    Sums {
        types: 1,
        bytes,
        nodes,
        places,
    }
}

fn plus(a: Sums, b: Sums) -> Sums
    requires { Small a × (Small b × (a.types + b.types ≤ 65536)) }
    ensures { result ≡ added a b }
{
    Sums {
        types: a.types + b.types,
        bytes: a.bytes + b.bytes,
        nodes: a.nodes + b.nodes,
        places: a.places + b.places,
    }
}

// What type t comes to, if it is over in `left` levels and has no more than `budget` types.
fn measure(chains: &Chains<'_, State<'_>>, t: u32, left: u32, budget: u32) -> Option<Sums>
    requires { (t < chains.now.st.now.used.nodes) × (budget ≤ 65536) }
    ensures { Measures chains.now.st.now t left budget result }
{
    let below = left.checked_sub(1)?;
    if budget == 0 {
        return None;
    }
    let Led::Node(x) = chains.lead(t) else {
        return Some(Sums {
            types: 1,
            bytes: 7,
            nodes: 1,
            places: 0,
        });
    };
    let shape = chains.st.node_at(x).shape;
    let mut m = own(shape);
    for i in 0..shapes::part_count(shape) {
        let p = shapes::part_at(chains.st, shape, i);
        let more = measure(chains, p, below, budget - m.types)?;
        m = plus(m, more);
    }
    Some(m)
}

// The bytes of type t, which fit, as `heads` has them; the place after them.
fn write_spelled<H: Heads>(
    chains: &Chains<'_, State<'_>>,
    t: u32,
    left: u32,
    heads: &mut H,
    buf: &mut [u8],
    at: usize,
) -> usize
    requires known { (ms : List ℕ) × H.met heads.old ms }
    requires in_use { (t < chains.now.st.now.used.nodes) × (AllBytes (tables chains.now.st.now) × AllNumbered (tables chains.now.st.now)) }
    requires fits { (ds : List d.Struct) → at + summed head_size left (held chains.now.st.now ds) t ≤ length buf.old }
    ensures { (ds : List d.Struct) (ms : List ℕ) → H.met heads.old ms → Goes H.met (spell_led H.spelling left (held chains.now.st.now ds) ms t) buf.old at heads.new buf.new result }
{
    let Some(below) = left.checked_sub(1) else {
        return at;
    };
    let x = match chains.lead(t) {
        Led::Open { loc, end } => return heads.write_head(loc, Shape::Var(end), buf, at),
        Led::Node(x) => x,
    };
    let n = chains.st.node_at(x);
    let loc = n.loc;
    let shape = n.shape;
    let many = shapes::part_count(shape);
    let mut next = heads.write_head(loc, shape, buf, at);
    for i in 0..many {
        let p = shapes::part_at(chains.st, shape, i);
        next = write_spelled(chains, p, below, heads, buf, next);
    }
    next
}

// .. as a record's answer has them. The names are made here, once measuring is over: its levels take the most stack.
#[inline(never)]
fn write_by(
    chains: &Chains<'_, State<'_>>,
    t: u32,
    left: u32,
    spelling: Spelling,
    buf: &mut [u8],
) -> usize
    requires in_use { (t < chains.now.st.now.used.nodes) × (AllBytes (tables chains.now.st.now) × AllNumbered (tables chains.now.st.now)) }
    requires fits { (ds : List d.Struct) → summed head_size left (held chains.now.st.now ds) t ≤ length buf.old }
    ensures { (ds : List d.Struct) → Wrote buf.old 0 (led_bytes (spelling_of spelling) left (held chains.now.st.now ds) t) buf.new result }
{
    match spelling {
        Spelling::Located => write_spelled(chains, t, left, &mut AsItStands, buf, 0),
        Spelling::Canonical => write_spelled(chains, t, left, &mut Names::new(), buf, 0),
    }
}

// ---- RD and CN

// What was measured, in as many levels as there are nodes, is written if it fits.
fn spell_measured(
    chains: &Chains<'_, State<'_>>,
    t: u32,
    m: Sums,
    spelling: Spelling,
    buf: &mut [u8],
) -> Result<usize, Refusal>
    requires in_use { (t < chains.now.st.now.used.nodes) × ((AllBytes (tables chains.now.st.now) × AllNumbered (tables chains.now.st.now)) × (4096 ≤ length buf.old)) }
    requires measured { (ds : List d.Struct) → (ends_in chains.now.st.now.used.nodes (held chains.now.st.now ds) t ≡ true) × SumsOf (λ f. summed f chains.now.st.now.used.nodes (held chains.now.st.now ds) t) m }
    ensures { (ds : List d.Struct) → Spells (spell_ready (spelling_of spelling) (held chains.now.st.now ds) t) buf.old buf.new result }
{
    let used = chains.st.used;
    if MAX_NODES - used.nodes < m.nodes {
        return Err(Refusal::Full);
    }
    if MAX_ARGS - used.args < m.places {
        return Err(Refusal::Full);
    }
    if MAX_PAYLOAD < m.bytes {
        return Err(Refusal::AnswerTooLong);
    }
    Ok(write_by(chains, t, used.nodes, spelling, buf))
}

// A type of any size: every end is noted first, for the test and for both walks. Not inlined, so that the table is in no other type's frame.
#[inline(never)]
fn spell_far(st: &State<'_>, t: u32, spelling: Spelling, buf: &mut [u8]) -> Result<usize, Refusal>
    requires { (t < st.now.used.nodes) × ((AllBytes (tables st.now) × AllNumbered (tables st.now)) × (4096 ≤ length buf.old)) }
    ensures { (ds : List d.Struct) → Spells (spell_ready (spelling_of spelling) (held st.now ds) t) buf.old buf.new result }
{
    let mut ends: [u32; 1024] = [0; 1024];
    note_ends(st, &mut ends);
    let chains = Chains { st, ends: &ends };
    if chains.never_over(t) {
        return Err(Refusal::RunsIntoItself);
    }
    match measure(&chains, t, st.used.nodes, MAX_TYPES) {
        Some(m) => spell_measured(&chains, t, m, spelling, buf),
        None => Err(Refusal::Full),
    }
}

// The bytes of type t with its variables replaced, and how many. A type of at most 64 types needs no ends.
pub fn spell_type(
    st: &State<'_>,
    t: u32,
    spelling: Spelling,
    buf: &mut [u8],
) -> Result<usize, Refusal>
    requires { (t < st.now.used.nodes) × ((AllBytes (tables st.now) × AllNumbered (tables st.now)) × (4096 ≤ length buf.old)) }
    ensures { (ds : List d.Struct) → Spells (spell_ready (spelling_of spelling) (held st.now ds) t) buf.old buf.new result }
{
    let chains = Chains { st, ends: &[] };
    match measure(&chains, t, st.used.nodes, 64) {
        Some(m) => spell_measured(&chains, t, m, spelling, buf),
        None => spell_far(st, t, spelling, buf),
    }
}
