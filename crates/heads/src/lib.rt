// A type's tag, location and fields from a record's bytes, without its parts (5, 6, 18).
#![tactic(auto)]

ghost use Rattle.std.specs.Prelude.{◌≡◌, ◌&&◌, List, ℕ, ◌-◌, ◌≤◌, ◌<◌, ltb, eqb, get_or, IfOk};
ghost use Rattle.definition.specs.Types as d;
ghost use Rattle.definition.specs.Types.{malformed, unknown_name};
ghost use Rattle.definition.specs.Store.{taken};
ghost use Rattle.definition.specs.Reader.{refuse, byte, read_u16, read_u32, name_below, read_one, read_two, byte_if, read_bool, Reader as Reading};
ghost use Rattle.definition.specs.Trees.{Tree, mark_of, read_mark, mark_fits, read_apply, by_tag, read_nested, ref_tree, param_tree, var_tree, is_set, under_ref};
ghost use Rattle.names.specs.Names.{mark_of as mark-is};
ghost use Rattle.table.specs.State.{Declares};
ghost use Rattle.table.specs.Did.{tables};
ghost use Rattle.cursor.specs.Words.{Within, read_as};
ghost use Rattle.heads.specs.Fields.{read_args, marked, many_parts, parts_read, tree_read, Few, Knows, Arities};

use cursor::Reader;
use names::{
    AbilityMark, AbilitySet, MAX_BUILTIN, TParamID, TVar, TypeName, builtin_tparams, has_drop,
    is_numeric,
};
use refusals::Refusal;
use table::read::ReadState;
use table::{Applied, Shape};

// A type without its parts: its location, and its tag and fields as a shape. No Node, whose shape names its parts: here none is placed yet.
#[derive(Clone, Copy)]
pub struct Head {
    pub loc: u32,
    pub shape: Shape,
}

// ---- ability marks

fn mark_of(byte: u32) -> Option<AbilityMark>
    ensures { marked result ≡ mark_of byte }
{
    match byte {
        0 => Some(None),
        16..=31 => Some(Some(AbilitySet((byte - 16) as u8))),
        _ => None,
    }
}

fn read_mark(r: &mut Reader) -> Result<AbilityMark, Refusal>
    ensures is { read_as mark-is result r.new.left.now ≡ read_mark r.old.left.now }
    ensures within { Within r.old.left.now r.new.left.now }
{
    let byte = r.u8()?;
    mark_of(u32::from(byte)).ok_or(Refusal::Malformed)
}

// On an integer type a set must contain drop.
fn fits(k: AbilityMark, b: u32) -> bool
    ensures { result ≡ mark_fits (mark-is k) (d.Builtin b) }
{
    match k {
        None => true,
        Some(a) => !is_numeric(b) || has_drop(a),
    }
}

// ---- fields after the tag and the location

// R-6: the type under a reference, which may nest `left` deep, begins with the tag of a reference.
fn is_doubled(r: &Reader, left: u32) -> bool
    ensures { result ≡ ltb 0 left && eqb (get_or r.now.left.now 0 0) 1 }
{
    0 < left && matches!(r.left, [1, ..])
}

fn ref_fields(r: &mut Reader, left: u32) -> Result<Shape, Refusal>
    ensures begins { (loc : ℕ) (part : Reading Tree) → parts_read loc result r.new.left.now part ≡ read_two (ref_tree loc) read_bool (under_ref left part) r.old.left.now }
    ensures few { Few result }
    ensures within { Within r.old.left.now r.new.left.now }
{
    let x = r.byte_to(1)?;
    if is_doubled(r, left) {
        return Err(Refusal::DoubledReference);
    }
    Ok(Shape::Ref(0 < x, 0))
}

fn param_fields(r: &mut Reader) -> Result<Shape, Refusal>
    ensures begins { (loc : ℕ) (part : Reading Tree) → parts_read loc result r.new.left.now part ≡ read_two (param_tree loc) read_u32 (byte_if is_set) r.old.left.now }
    ensures few { Few result }
    ensures within { Within r.old.left.now r.new.left.now }
{
    let id = r.u32()?;
    let abilities = r.byte_to(15)?;
    Ok(Shape::Param(TParamID(id), AbilitySet(abilities)))
}

fn builtin_fields(r: &mut Reader) -> Result<Shape, Refusal>
    ensures begins { (s : d.State) (loc : ℕ) (part : Reading Tree) → parts_read loc result r.new.left.now part ≡ read_apply s part loc byte d.Builtin malformed r.old.left.now }
    ensures few { Few result }
    ensures within { Within r.old.left.now r.new.left.now }
{
    let k = read_mark(r)?;
    let n = u32::from(r.byte_to(MAX_BUILTIN)?);
    if !fits(k, n) {
        return Err(Refusal::Malformed);
    }
    let many = builtin_tparams(n);
    Ok(Shape::Apply(Applied {
        k,
        n: TypeName::Builtin(n),
        first: 0,
        many,
    }))
}

fn list_fields(r: &mut Reader) -> Result<Shape, Refusal>
    ensures begins { (s : d.State) (loc : ℕ) (part : Reading Tree) → parts_read loc result r.new.left.now part ≡ read_apply s part loc byte d.Multiple malformed r.old.left.now }
    ensures few { Few result }
    ensures within { Within r.old.left.now r.new.left.now }
{
    let k = read_mark(r)?;
    let n = u32::from(r.byte_to(8)?);
    Ok(Shape::Apply(Applied {
        k,
        n: TypeName::Multiple(n),
        first: 0,
        many: n,
    }))
}

fn struct_fields<S: ReadState>(st: &S, r: &mut Reader) -> Result<Shape, Refusal>
    requires { Arities (tables (S.state st.now)).structs }
    ensures begins { (s : d.State) → Declares (S.state st.now).words.now (S.state st.now).used s.structs → (loc : ℕ) (part : Reading Tree) → parts_read loc result r.new.left.now part ≡ read_apply s part loc read_u16 d.ModuleType unknown_name r.old.left.now }
    ensures few { Few result }
    ensures within { Within r.old.left.now r.new.left.now }
{
    let k = read_mark(r)?;
    let n = u32::from(r.name_below(st.used().structs)?);
    let many = st.struct_at(n).params;
    Ok(Shape::Apply(Applied {
        k,
        n: TypeName::ModuleType(n),
        first: 0,
        many,
    }))
}

fn var_fields(r: &mut Reader, known: u32) -> Result<Shape, Refusal>
    ensures begins { (s : d.State) → taken s ≡ known → (loc : ℕ) (part : Reading Tree) → parts_read loc result r.new.left.now part ≡ read_one (var_tree loc) (name_below (taken s)) r.old.left.now }
    ensures few { Few result }
    ensures within { Within r.old.left.now r.new.left.now }
{
    let v = r.name_below(known)?;
    Ok(Shape::Var(TVar(v)))
}

// By the tag, from 0 to 8; a part may nest `left` deep. Inlined, as read_head is: a shape that a call gives back goes through memory.
#[inline(always)]
fn fields<S: ReadState>(
    st: &S,
    r: &mut Reader,
    known: u32,
    left: u32,
    tag: u8,
) -> Result<Shape, Refusal>
    requires few_params { Arities (tables (S.state st.now)).structs }
    requires is_tag { tag ≤ 8 }
    ensures begins { (s : d.State) (ds : List d.Struct) → Declares (S.state st.now).words.now (S.state st.now).used ds → Knows s known ds → (loc : ℕ) (part : Reading Tree) → parts_read loc result r.new.left.now part ≡ get_or (by_tag s part loc left) tag (refuse malformed) r.old.left.now }
    ensures few { Few result }
    ensures within { Within r.old.left.now r.new.left.now }
{
    match tag {
        0 => Ok(Shape::Unit),
        1 => ref_fields(r, left),
        2 => param_fields(r),
        3 => builtin_fields(r),
        4 => list_fields(r),
        5 => struct_fields(st, r),
        6 => var_fields(r, known),
        7 => Ok(Shape::Anything),
        _ => Ok(Shape::UnresolvedError),
    }
}

// Tag, location and fields of a type at most `nest` deep.
#[inline(always)]
pub fn read_head<S: ReadState>(
    st: &S,
    r: &mut Reader,
    known: u32,
    nest: u32,
) -> Result<Head, Refusal>
    requires { Arities (tables (S.state st.now)).structs }
    ensures reads { (s : d.State) (ds : List d.Struct) → Declares (S.state st.now).words.now (S.state st.now).used ds → Knows s known ds → tree_read result r.new.left.now (read_nested (nest - 1) s) ≡ read_nested nest s r.old.left.now }
    ensures few { IfOk result (λ h. (many_parts h.shape ≤ 8) × (0 < nest)) }
    ensures within { Within r.old.left.now r.new.left.now }
{
    if nest == 0 {
        return Err(Refusal::Malformed);
    }
    let tag = r.byte_to(8)?;
    let loc = r.u32()?;
    let shape = fields(st, r, known, nest - 1, tag)?;
    Ok(Head { loc, shape })
}
