// typing/expand.rs: type_. XP: the type with its variables replaced and its marks set, and a code for each variable that nothing decides.
// Changed from the source that NOTICE names: ported to Rattle. The type is sized before it is written: on 14 the buffer stays as it was.
#![tactic(auto)]

ghost use Rattle.std.specs.Prelude.{◌≡◌, List, ◌++◌, ℕ, ◌+◌, ◌≤◌, ◌<◌, length};
ghost use Rattle.definition.specs.Types as d;
ghost use Rattle.definition.specs.Store.{with_args};
ghost use Rattle.definition.specs.Abilities.{infer_abilities};
ghost use Rattle.theorems.proofs.DemandOrder.{Sound};
ghost use Rattle.names.specs.Names.{name_of};
ghost use Rattle.table.specs.State.{shape_of, value_of};
ghost use Rattle.table.specs.Did.{held, tables};
ghost use Rattle.table.specs.Known.{Declared};
ghost use Rattle.snapshot.specs.Back.{GrownFrom};
ghost use Rattle.writer.specs.Bytes.{Wrote, AllBytes, ByteFields};
ghost use Rattle.abilities.specs.Kept.{Knows, HasSet, Ends};
ghost use Rattle.ready.specs.Spell.{Spells};
ghost use Rattle.answer.specs.Ran.{Still, told_by};
ghost use Rattle.answer.specs.Answered.{AnswersIn};
ghost use Rattle.expand.specs.Told.{expanded_bytes, keeps_mark, is_marked, finally, own, set_in, told, marked_in};
ghost use Rattle.expand.specs.Walks.{Leads, Comes, Clears, Leaves, Fit, Expands};
ghost use Rattle.expand.specs.declared.Half.TheVariants.{Types, Codes};

use abilities::{infer, kept};
use answer::settle_spelled;
use ends::{Chains, Led, note_ends};
use names::{AbilitySet, TypeName};
use payload::{Answer, MAX_PAYLOAD};
use refusals::Refusal;
use snapshot::before::Before;
use table::read::ReadState;
use table::state::State;
use table::{Applied, Node, Shape};

// What is written: the type, or its codes.
#[derive(Clone, Copy)]
enum Half {
    Types,
    Codes,
}

// ---- 17

// A builtin's mark stays.
// Refused (must-fail/): 17 for a marked builtin (marked_builtin_is_17), or for lists alone (seventeen_of_lists_alone).
#[tactic(auto, unfolding(crate::specs::Told::keeps_mark))]
fn keeps_mark(n: TypeName) -> bool
    ensures { result ≡ keeps_mark (name_of n) }
{
    match n {
        TypeName::Multiple(_) => false,
        TypeName::Builtin(_) => true,
        TypeName::ModuleType(_) => false,
    }
}

// A list or a struct with a mark.
#[tactic(auto, unfolding(crate::specs::Told::is_marked, definition::specs::Store::with_args))]
fn is_marked(shape: Shape) -> bool
    ensures { (st : d.State) → result ≡ is_marked (with_args st (shape_of shape)) }
{
    match shape {
        Shape::Apply(a) => match a.k {
            None => false,
            Some(_) => !keeps_mark(a.n),
        },
        Shape::Unit
        | Shape::Ref(_, _)
        | Shape::Param(_, _)
        | Shape::Var(_)
        | Shape::Anything
        | Shape::UnresolvedError => false,
    }
}

// Whether reading node t, which is over in `left` levels, comes to one. A node that does not is noted in `clear`: each is read once.
fn comes_to_marked(chains: &Chains<'_, State<'_>>, t: u32, left: u32, clear: &mut [u8]) -> bool
    requires { (t < chains.now.st.now.used.nodes) × (Ends chains.now.st.now left t × Clears chains.now.st.now clear.old) }
    ensures { Comes chains.now.st.now t left result × Clears chains.now.st.now clear.new }
{
    let at = table::wide(t);
    if 0 < clear[at] {
        return false;
    }
    let shape = chains.goes_on(t);
    if is_marked(shape) {
        return true;
    }
    for i in 0..shapes::part_count(shape) {
        let p = shapes::part_at(chains.st, shape, i);
        if comes_to_marked(chains, p, left - 1, clear) {
            return true;
        }
    }
    clear[at] = 1;
    false
}

fn has_marked(chains: &Chains<'_, State<'_>>, t: u32) -> bool
    requires { (t < chains.now.st.now.used.nodes) × Ends chains.now.st.now chains.now.st.now.used.nodes t }
    ensures { (ds : List d.Struct) → result ≡ marked_in chains.now.st.now.used.nodes (held chains.now.st.now ds) t }
{
    let mut clear: [u8; 2048] = [0; 2048];
    comes_to_marked(chains, t, chains.st.used.nodes, &mut clear)
}

// ---- a type without its parts

// What type t leads to, with its location: a node, or an open variable, which stands where it is met.
// Refused: another location for an open variable (code_at_the_binding).
fn leads_to(chains: &Chains<'_, State<'_>>, t: u32) -> Node
    requires { t < chains.now.st.now.used.nodes }
    ensures { Leads chains.now.st.now t result }
{
    match chains.lead(t) {
        Led::Node(x) => chains.st.node_at(x),
        Led::Open { loc, end } => Node {
            loc,
            shape: Shape::Var(end),
        },
    }
}

// An unbound variable becomes `!`, a name without mark gets its set.
#[tactic(auto, unfolding(crate::specs::Told::finally))]
fn finally(shape: Shape, set: AbilitySet) -> Shape
    ensures { (shape_of result ≡ finally set.0 (shape_of shape)) × (value_of result ≡ finally set.0 (value_of shape)) }
{
    match shape {
        Shape::Unit => Shape::Unit,
        Shape::Ref(mutable, t) => Shape::Ref(mutable, t),
        Shape::Param(id, a) => Shape::Param(id, a),
        Shape::Apply(a) => match a.k {
            None => Shape::Apply(Applied {
                k: Some(set),
                n: a.n,
                first: a.first,
                many: a.many,
            }),
            Some(_) => Shape::Apply(a),
        },
        Shape::Anything => Shape::Anything,
        Shape::Var(_) | Shape::UnresolvedError => Shape::UnresolvedError,
    }
}

// With its code, if it is a variable.
// Refused: the type alone (size_without_codes).
fn own_size(shape: Shape) -> u32
    ensures { ((set loc : ℕ) → result ≡ length (own Types set (record { loc = loc; value = value_of shape })) + length (own Codes set (record { loc = loc; value = value_of shape }))) × (result ≤ 10) }
{
    match shapes::as_var(shape) {
        None => writer::head_size(shape),
        Some(_) => 10,
    }
}

fn write_own(
    half: Half,
    loc: u32,
    shape: Shape,
    set: AbilitySet,
    buf: &mut [u8],
    at: usize,
) -> usize
    requires { ByteFields (finally set.0 (shape_of shape)) × (at + length (own half set.0 (record { loc = loc; value = value_of shape })) ≤ length buf.old) }
    ensures { Wrote buf.old at (own half set.0 (record { loc = loc; value = value_of shape })) buf.new result }
{
    match half {
        Half::Types => writer::write_head(loc, finally(shape, set), buf, at),
        Half::Codes => match shapes::as_var(shape) {
            None => at,
            Some(_) => writer::put_tag(buf, at, 5, loc),
        },
    }
}

// ---- a type with its parts

// How much of `room` the type and its codes leave, in `left` levels; none: they are longer. No set is looked at.
fn size(chains: &Chains<'_, State<'_>>, t: u32, left: u32, room: u32) -> Option<u32>
    requires { t < chains.now.st.now.used.nodes }
    ensures { (ds : List d.Struct) (set : ℕ → ℕ) → Leaves room (length (told Types set left (held chains.now.st.now ds) t) + length (told Codes set left (held chains.now.st.now ds) t)) result }
{
    let Some(below) = left.checked_sub(1) else {
        return Some(room);
    };
    let shape = leads_to(chains, t).shape;
    let mut rest = room.checked_sub(own_size(shape))?;
    for i in 0..shapes::part_count(shape) {
        let p = shapes::part_at(chains.st, shape, i);
        rest = size(chains, p, below, rest)?;
    }
    Some(rest)
}

// That half of the type's bytes, which fit; the place after them.
// Refused: the set of an argument in a name's mark (set_of_the_part).
fn write(
    chains: &Chains<'_, State<'_>>,
    sets: &[u32],
    t: u32,
    left: u32,
    half: Half,
    buf: &mut [u8],
    at: usize,
) -> usize
    requires in_use { (t < chains.now.st.now.used.nodes) × AllBytes (tables chains.now.st.now) }
    requires kept { Fit chains.now.st.now sets.now × HasSet sets.now t }
    requires fits { (ds : List d.Struct) → at + length (told half (set_in sets.now) left (held chains.now.st.now ds) t) ≤ length buf.old }
    ensures { (ds : List d.Struct) → Wrote buf.old at (told half (set_in sets.now) left (held chains.now.st.now ds) t) buf.new result }
{
    let Some(below) = left.checked_sub(1) else {
        return at;
    };
    let n = leads_to(chains, t);
    let shape = n.shape;
    let many = shapes::part_count(shape);
    let mut next = write_own(half, n.loc, shape, kept(sets, t), buf, at);
    for i in 0..many {
        let p = shapes::part_at(chains.st, shape, i);
        next = write(chains, sets, p, below, half, buf, next);
    }
    next
}

// ---- XP

// What fits: the sets are kept, one a node, and the type is written and then its codes.
fn spell_sized(
    chains: &Chains<'_, State<'_>>,
    params: &[[u8; 8]; 256],
    t: u32,
    buf: &mut [u8],
) -> usize
    requires in_use { (t < chains.now.st.now.used.nodes) × (AllBytes (tables chains.now.st.now) × (Declared chains.now.st.now.words.now chains.now.st.now.used params.now × (4096 ≤ length buf.old))) }
    requires ends { Ends chains.now.st.now chains.now.st.now.used.nodes t }
    requires fits { (ds : List d.Struct) (set : ℕ → ℕ) → length (told Types set chains.now.st.now.used.nodes (held chains.now.st.now ds) t) + length (told Codes set chains.now.st.now.used.nodes (held chains.now.st.now ds) t) ≤ 4096 }
    ensures { (ds : List d.Struct) → Knows chains.now.st.now params.now ds → Wrote buf.old 0 (told Types (infer_abilities (held chains.now.st.now ds)) chains.now.st.now.used.nodes (held chains.now.st.now ds) t ++ told Codes (infer_abilities (held chains.now.st.now ds)) chains.now.st.now.used.nodes (held chains.now.st.now ds) t) buf.new result }
{
    let mut sets: [u32; 2048] = [0; 2048];
    let left = chains.st.used.nodes;
    infer(chains, params, t, left, &mut sets);
    let next = write(chains, &sets, t, left, Half::Types, buf, 0);
    write(chains, &sets, t, left, Half::Codes, buf, next)
}

// A type that does not run into itself.
fn spell_over(
    chains: &Chains<'_, State<'_>>,
    params: &[[u8; 8]; 256],
    t: u32,
    buf: &mut [u8],
) -> Result<usize, Refusal>
    requires in_use { (t < chains.now.st.now.used.nodes) × (AllBytes (tables chains.now.st.now) × (Declared chains.now.st.now.words.now chains.now.st.now.used params.now × (4096 ≤ length buf.old))) }
    requires ends { Ends chains.now.st.now chains.now.st.now.used.nodes t }
    ensures { Expands chains.now.st.now params.now t buf.old buf.new result }
{
    if has_marked(chains, t) {
        return Err(Refusal::AlreadyExpanded);
    }
    match size(chains, t, chains.st.used.nodes, MAX_PAYLOAD) {
        Some(_) => Ok(spell_sized(chains, params, t, buf)),
        None => Err(Refusal::AnswerTooLong),
    }
}

// A type of any size: every end is noted first, for the test and for all walks. Not inlined, so that the table is in no other record's frame.
#[inline(never)]
fn spell_far(
    st: &State<'_>,
    params: &[[u8; 8]; 256],
    t: u32,
    buf: &mut [u8],
) -> Result<usize, Refusal>
    requires { (t < st.now.used.nodes) × (AllBytes (tables st.now) × (Declared st.now.words.now st.now.used params.now × (4096 ≤ length buf.old))) }
    ensures { Expands st.now params.now t buf.old buf.new result }
{
    let mut ends: [u32; 1024] = [0; 1024];
    note_ends(st, &mut ends);
    let chains = Chains { st, ends: &ends };
    if chains.never_over(t) {
        return Err(Refusal::RunsIntoItself);
    }
    spell_over(&chains, params, t, buf)
}

// The payload's bytes, and how many. A type of at most 64 types needs no ends.
fn spell_type(
    st: &State<'_>,
    params: &[[u8; 8]; 256],
    t: u32,
    buf: &mut [u8],
) -> Result<usize, Refusal>
    requires { (t < st.now.used.nodes) × (AllBytes (tables st.now) × (Declared st.now.words.now st.now.used params.now × (4096 ≤ length buf.old))) }
    ensures { Expands st.now params.now t buf.old buf.new result }
{
    if ends::near_over(st, t) {
        spell_over(&Chains { st, ends: &[] }, params, t, buf)
    } else {
        spell_far(st, params, t, buf)
    }
}

// XP of node t, which is placed in a sound state.
// Refused: nodes that stay in use (nodes_kept).
pub fn expand(
    st: &mut State<'_>,
    before: Before<'_>,
    params: &[[u8; 8]; 256],
    t: u32,
    buf: &mut [u8],
) -> Answer
    ghost w0: { List ℕ }
    requires grown { GrownFrom w0 before st.old }
    requires in_use { (t < st.old.used.nodes) × (AllBytes (tables st.old) × (Declared st.old.words.now st.old.used params.now × (4096 ≤ length buf.old))) }
    requires still { Still st.old.words.now st.old.used before.used before.saved.now }
    ensures { (ds : List d.Struct) → Knows st.old params.now ds → (arity : d.TypeName → ℕ) → Sound arity (held st.old ds) → AnswersIn w0 before.entry st.old st.new buf.old buf.new result (told_by (λ s. expanded_bytes (held st.old ds) t)) }
{
    let spelled = spell_type(st, params, t, buf);
    settle_spelled(st, before, spelled)
}
