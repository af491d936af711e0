// The state of a job in words that the caller lends (docs/STATE.md), and the few functions that touch those words.
// Five counts, then 2,048 node rows of six, 4,096 argument places, 1,024 variable rows of five, 512 constraint rows of four, 256 struct rows of two.
#![tactic(auto)]

ghost use Rattle.std.specs.Prelude.{◌≡◌, [], ℕ, ◌∷◌, ◌+◌, ◌*◌, ◌≤◌, ◌<◌, ◌%◌, length, get_or, set, take};
ghost use Rattle.definition.specs.Types as d;
ghost use Rattle.definition.specs.Store.{node};
ghost use Rattle.names.specs.Names.{mark_of, name_of};
ghost use Rattle.table.specs.Rows.{read_shape, read_mark, read_name, read_option, mark_word, name_word, name_tag, read_constraint, node_table, var_table, constraint_table, places, Written};
ghost use Rattle.table.specs.State.{shape_of, node_at, cell, constraint_of, Wrote};
ghost use Rattle.table.specs.Touched.{Touches};
ghost use Rattle.table.specs.State.{node_words_at, cell_words_at, constraint_words_at, struct_words_at};

pub mod calls;
pub mod one_row;
pub mod read;
pub mod shared;
pub mod state;

use names::{AbilityMark, AbilitySet, TParamID, TVar, TypeName};

// Where each table begins in the words, and how many words a row of it has. Contracts have the numbers themselves: a wrong one here is refused.
pub const NODES_AT: usize = 5;

pub const NODE_WORDS: usize = 6;

pub const ARGS_AT: usize = 12293;

pub const VARS_AT: usize = 16389;

pub const VAR_WORDS: usize = 5;

pub const CONSTRAINTS_AT: usize = 21509;

pub const CONSTRAINT_WORDS: usize = 4;

pub const STRUCTS_AT: usize = 23557;

pub const STRUCT_WORDS: usize = 2;

// How many words there are.
pub const WORDS: usize = 24069;

// A named type: its arguments are places, the first and how many.
#[derive(Clone, Copy)]
pub struct Applied {
    pub k: AbilityMark,
    pub n: TypeName,
    pub first: u32,
    pub many: u32,
}

// Type_, as a node row has it.
#[derive(Clone, Copy)]
pub enum Shape {
    Unit,
    Ref(bool, u32),
    Param(TParamID, AbilitySet),
    Apply(Applied),
    Var(TVar),
    Anything,
    UnresolvedError,
}

#[derive(Clone, Copy)]
pub struct Node {
    pub loc: u32,
    pub shape: Shape,
}

#[derive(Clone, Copy)]
pub enum Constraint {
    Ability(u32, u32, AbilitySet),
    Numeric(u32, u32),
    Bits(u32, u32),
    Ordered(u32, u32),
    BaseType(u32, u32),
    SingleType(u32, u32),
}

// A struct row: declared abilities, and how many parameters.
#[derive(Clone, Copy)]
pub struct StructRow {
    pub abilities: AbilitySet,
    pub params: u32,
}

// The words of a node's row: tag, location, four fields.
#[derive(Clone, Copy)]
pub struct NodeWords {
    pub tag: u32,
    pub loc: u32,
    pub a: u32,
    pub b: u32,
    pub c: u32,
    pub d: u32,
}

// .. of a variable's: whether bound, the node; whether numeric, the location; how many bits are needed.
#[derive(Clone, Copy)]
pub struct CellWords {
    pub bound: u32,
    pub binding: u32,
    pub numeric: u32,
    pub loc: u32,
    pub need: u32,
}

// .. of a constraint's.
#[derive(Clone, Copy)]
pub struct ConstraintWords {
    pub kind: u32,
    pub loc: u32,
    pub ty: u32,
    pub abilities: u32,
}

// .. of a struct's.
#[derive(Clone, Copy)]
pub struct StructWords {
    pub abilities: u32,
    pub params: u32,
}

// How many rows of each table are in use.
#[derive(Clone, Copy)]
pub struct Used {
    pub nodes: u32,
    pub args: u32,
    pub vars: u32,
    pub constraints: u32,
    pub structs: u32,
}

// Which of the variables whose rows are saved were bound or marked since. A fourth is not told apart: it may be any.
#[derive(Clone, Copy)]
pub enum Touched {
    Nothing,
    One(u32),
    Two(u32, u32),
    Three(u32, u32, u32),
    Any,
}

// TypingError: the two types, or the location of a type that would contain itself.
#[derive(Clone, Copy)]
pub enum TypingError {
    SubtypeError(u32, u32),
    Incompatible(u32, u32),
    ArityMismatch(u32, u32),
    RecursiveType(u32),
}

// The number as an index. std has no From<u32> for usize.
pub fn wide(x: u32) -> usize
    ensures { result ≡ x }
{
    x as usize
}

// A count as a variable: it asks for a bound, so no From; nor TryFrom, since no caller has a number that could fail.
pub fn tvar(v: u32) -> TVar
    requires { v < 65536 }
    ensures { result.0 ≡ v }
{
    TVar(v as u16)
}

fn set_at(x: u32) -> AbilitySet
    ensures { result.0 ≡ x % 256 }
{
    AbilitySet((x % 256) as u8)
}

fn tvar_at(x: u32) -> TVar
    ensures { result.0 ≡ x % 65536 }
{
    TVar((x % 65536) as u16)
}

// What is noted of v; 0 past the last.
pub fn noted(notes: &[u32], v: TVar) -> u32
    ensures { result ≡ get_or notes.now v.0 0 }
{
    let at = usize::from(v.0);
    if at < notes.len() { notes[at] } else { 0 }
}

pub fn note(notes: &mut [u32], v: TVar, x: u32)
    ensures { notes.new ≡ set notes.old v.0 x }
{
    let at = usize::from(v.0);
    if at < notes.len() {
        notes[at] = x;
    }
}

// Variable v is bound or marked: it is noted, if its row is among the first `saved`.
// Refused (must-fail/): a fourth that is forgotten (fourth_forgotten), a note that is lost (note_lost).
fn touch(touched: Touched, saved: u32, v: u32) -> Touched
    ensures { Touches saved v touched result }
{
    if saved <= v {
        return touched;
    }
    match touched {
        Touched::Nothing => Touched::One(v),
        Touched::One(a) => Touched::Two(a, v),
        Touched::Two(a, b) => Touched::Three(a, b, v),
        Touched::Three(_, _, _) | Touched::Any => Touched::Any,
    }
}

// ---- rows

// These words, from place `at` on.
pub fn write_words(w: &mut [u32], at: usize, words: &[u32])
    requires { at + length words.now ≤ length w.old }
    ensures { Wrote w.old at (length words.now) words.now w.new }
{
    w[at..at + words.len()].copy_from_slice(words);
}

// The first n of these parts, from place `at` on. Not write_words: a copy whose length is not known is a call, and waits for the single stores before it.
fn write_parts(w: &mut [u32], at: usize, parts: [u32; 8], n: u32)
    requires { (n ≤ 8) × (at + n ≤ length w.old) }
    ensures { Wrote w.old at n parts w.new }
{
    for i in 0..8 {
        if i < wide(n) {
            w[at + i] = parts[i];
        }
    }
}

// Row i of a table whose rows have N words.
fn put_row<const N: usize>(w: &mut [u32], base: usize, i: u32, row: [u32; N])
    requires { base + i * N + N ≤ length w.old }
    ensures { Wrote w.old (base + i * N) N row.entry w.new }
{
    write_words(w, base + i as usize * N, &row);
}

// Row i of a table whose rows have N words, from word `base` on.
fn row_at<const N: usize>(w: &[u32], base: usize, i: u32) -> [u32; N]
    requires { base + i * N + N ≤ length w.now }
    ensures { (k : ℕ) → k < N → get_or result k 0 ≡ get_or w.now (base + i * N + k) 0 }
{
    let at = base + i as usize * N;
    let mut row = [0; N];
    row.copy_from_slice(&w[at..at + N]);
    row
}

pub fn node_words_at(w: &[u32], t: u32) -> NodeWords
    requires { (length w.now ≡ 24069) × (t < 2048) }
    ensures { result ≡ node_words_at w.now t }
{
    let [tag, loc, a, b, c, d] = row_at::<NODE_WORDS>(w, NODES_AT, t);
    NodeWords {
        tag,
        loc,
        a,
        b,
        c,
        d,
    }
}

pub fn cell_words_at(w: &[u32], v: u32) -> CellWords
    requires { (length w.now ≡ 24069) × (v < 1024) }
    ensures { result ≡ cell_words_at w.now v }
{
    let [bound, binding, numeric, loc, need] = row_at::<VAR_WORDS>(w, VARS_AT, v);
    CellWords {
        bound,
        binding,
        numeric,
        loc,
        need,
    }
}

pub fn constraint_words_at(w: &[u32], i: u32) -> ConstraintWords
    requires { (length w.now ≡ 24069) × (i < 512) }
    ensures { result ≡ constraint_words_at w.now i }
{
    let [kind, loc, ty, abilities] = row_at::<CONSTRAINT_WORDS>(w, CONSTRAINTS_AT, i);
    ConstraintWords {
        kind,
        loc,
        ty,
        abilities,
    }
}

pub fn struct_words_at(w: &[u32], i: u32) -> StructWords
    requires { (length w.now ≡ 24069) × (i < 256) }
    ensures { result ≡ struct_words_at w.now i }
{
    let [abilities, params] = row_at::<STRUCT_WORDS>(w, STRUCTS_AT, i);
    StructWords { abilities, params }
}

fn mark_at(x: u32) -> AbilityMark
    ensures { mark_of result ≡ read_mark x }
{
    if x < 16 { None } else { Some(set_at(x - 16)) }
}

fn mark_word(m: AbilityMark) -> u32
    ensures { (result ≡ mark_word (mark_of m)) × (read_mark result ≡ mark_of m) }
{
    match m {
        None => 0,
        Some(a) => 16 + u32::from(a),
    }
}

// Two words of a variable's row, of which the first is a flag.
fn option_at(is: u32, x: u32) -> Option<u32>
    ensures { result ≡ read_option is x }
{
    if is == 1 { Some(x) } else { None }
}

fn name_at(tag: u32, x: u32) -> TypeName
    ensures { name_of result ≡ read_name tag x }
{
    match tag {
        3 => TypeName::Builtin(x),
        4 => TypeName::Multiple(x),
        _ => TypeName::ModuleType(x),
    }
}

// The tags 0 to 8 stand here, in name_at, apply_row and row_of alone, where a row is read and written: an enum of tags would be a second Shape.
fn shape_at(r: NodeWords) -> Shape
    ensures { shape_of result ≡ read_shape r.tag r.a r.b r.c r.d }
{
    match r.tag {
        0 => Shape::Unit,
        1 => Shape::Ref(r.a == 1, r.b),
        2 => Shape::Param(TParamID(r.a), set_at(r.b)),
        3..=5 => Shape::Apply(Applied {
            k: mark_at(r.a),
            n: name_at(r.tag, r.b),
            first: r.c,
            many: r.d,
        }),
        6 => Shape::Var(tvar_at(r.a)),
        7 => Shape::Anything,
        _ => Shape::UnresolvedError,
    }
}

fn apply_row(loc: u32, k: u32, n: TypeName, first: u32, many: u32) -> [u32; 6]
    ensures { take 6 result ≡ name_tag (name_of n) ∷ loc ∷ k ∷ name_word (name_of n) ∷ first ∷ many ∷ [] }
{
    match n {
        TypeName::Multiple(c) => [4, loc, k, c, first, many],
        TypeName::Builtin(b) => [3, loc, k, b, first, many],
        TypeName::ModuleType(s) => [5, loc, k, s, first, many],
    }
}

// The row of a node.
fn row_of(loc: u32, shape: Shape) -> [u32; 6]
    ensures { Written node_table result (node_at loc shape) }
{
    match shape {
        Shape::Unit => [0, loc, 0, 0, 0, 0],
        Shape::Ref(m, t) => [1, loc, u32::from(m), t, 0, 0],
        Shape::Param(id, a) => [2, loc, id.0, u32::from(a), 0, 0],
        Shape::Apply(a) => apply_row(loc, mark_word(a.k), a.n, a.first, a.many),
        Shape::Var(v) => [6, loc, u32::from(v), 0, 0, 0],
        Shape::Anything => [7, loc, 0, 0, 0, 0],
        Shape::UnresolvedError => [8, loc, 0, 0, 0, 0],
    }
}

// The row of a variable.
fn cell_row(b: Option<u32>, m: Option<u32>, need: u32) -> [u32; 5]
    ensures { Written var_table result (cell b m need) }
{
    [
        u32::from(b.is_some()),
        b.unwrap_or(0),
        u32::from(m.is_some()),
        m.unwrap_or(0),
        need,
    ]
}

// ---- constraints

fn constraint_row(c: Constraint) -> [u32; 4]
    ensures { Written constraint_table result (constraint_of c) }
{
    match c {
        Constraint::Ability(loc, ty, a) => [0, loc, ty, u32::from(a)],
        Constraint::Numeric(loc, ty) => [1, loc, ty, 0],
        Constraint::Bits(loc, ty) => [2, loc, ty, 0],
        Constraint::Ordered(loc, ty) => [3, loc, ty, 0],
        Constraint::BaseType(loc, ty) => [4, loc, ty, 0],
        Constraint::SingleType(loc, ty) => [5, loc, ty, 0],
    }
}

fn constraint_of(r: ConstraintWords) -> Constraint
    ensures { constraint_of result ≡ read_constraint (r.kind ∷ r.loc ∷ r.ty ∷ r.abilities ∷ []) }
{
    match r.kind {
        0 => Constraint::Ability(r.loc, r.ty, set_at(r.abilities)),
        1 => Constraint::Numeric(r.loc, r.ty),
        2 => Constraint::Bits(r.loc, r.ty),
        3 => Constraint::Ordered(r.loc, r.ty),
        4 => Constraint::BaseType(r.loc, r.ty),
        _ => Constraint::SingleType(r.loc, r.ty),
    }
}
