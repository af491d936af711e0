// The fields of a record after its mark, read from left to right (5, 6, 18), its types placed as nodes (7).
#![tactic(auto)]

ghost use Rattle.std.specs.Prelude.{◌≡◌, List, ℕ, ◌≤◌, length, IfOk};
ghost use Rattle.definition.specs.Store.{taken};
ghost use Rattle.definition.specs.Reader.{byte_to, times, read_one, read_two, read_three, name_below, read_u32};
ghost use Rattle.definition.specs.Trees.{read_type};
ghost use Rattle.definition.specs.Record.{SN, NL, IN, NC, RM, XP, read_SD, read_kind, read_bits};
ghost use Rattle.table.specs.Did.{tables};
ghost use Rattle.table.specs.declared.state.State.{State as Table};
ghost use Rattle.heads.specs.Fields.{Arities};
ghost use Rattle.marks.specs.Marks.{loc_record, look_record, two_record, loc_type_record};
ghost use Rattle.cursor.specs.Words.{Within, read, read_as};
ghost use Rattle.constraints.specs.Solve.{kind_of};
ghost use Rattle.fields.specs.Noded.{FieldsAre, params_of};

use constraints::NumericKind;
use cursor::Reader;
use marks::{LocMark, LocTypeMark, LookMark, TwoMark};
use names::{AbilitySet, TParamID, TVar};
use needs::{Sums, count_type};
use reader::read_type;
use refusals::Refusal;
use table::read::ReadState;
use table::state::State;

// ---- a record that is read, its types placed as nodes

// It may bind or mark a variable that is there.
#[derive(Clone, Copy)]
pub enum Bind {
    SN(TVar, u32),
    Two(TwoMark, u32, u32),
    IN(u32),
}

// The first `many` ids, each with its argument's node: in two arrays, since contracts speak of the nodes as of any parts.
#[derive(Clone, Copy)]
pub struct Pairs {
    pub ids: [TParamID; 8],
    pub nodes: [u32; 8],
    pub many: u32,
}

// It only shows, the state stays as at entry.
#[derive(Clone, Copy)]
pub enum Look {
    One(LookMark, u32),
    TS(Pairs, u32),
}

// It takes new rows at most.
#[derive(Clone, Copy)]
pub enum Add {
    Loc(LocMark, u32),
    NL(u32, u16),
    NC(u32, NumericKind, u32),
    LocType(LocTypeMark, u32, u32),
    RM(Option<Sums>),
}

// The first `many` bytes, one for each parameter of a struct.
#[derive(Clone, Copy)]
pub struct Params {
    pub bytes: [u8; 8],
    pub many: u8,
}

#[derive(Clone, Copy)]
pub enum What {
    SD(AbilitySet, Params),
    SV,
    Bind(Bind),
    Look(Look),
    Add(Add),
    XP(u32),
    // So many pairs, which stand in the list of names: of each its case, 0 or 1 as the record has it, and its two nodes.
    MJ(u32),
    // So many variables, which stand in the list of names.
    KP(u32),
}

// What was read, or none if there was no space for its types (7); and the place after it, beside both, since a record without space has one too.
#[derive(Clone, Copy)]
pub struct Fields {
    pub read: Result<Option<What>, Refusal>,
    pub next: usize,
}

// ---- one type, or two. Each reader makes a value of its own: one with a closure for it would be no shorter

pub fn read_look(
    st: &mut State<'_>,
    r: &mut Reader,
    known: u32,
    m: LookMark,
) -> Result<Option<What>, Refusal>
    requires { Arities (tables st.old).structs }
    ensures is { (names : List ℕ) → FieldsAre names st.old known (λ s. read_one (look_record m) (read_type s) r.old.left.now) st.new r.new.left.now result }
    ensures within { Within r.old.left.now r.new.left.now }
{
    let ty = read_type(st, r, known, 64, false)?;
    Ok(ty.map(|t| What::Look(Look::One(m, t))))
}

pub fn read_in(st: &mut State<'_>, r: &mut Reader, known: u32) -> Result<Option<What>, Refusal>
    requires { Arities (tables st.old).structs }
    ensures is { (names : List ℕ) → FieldsAre names st.old known (λ s. read_one IN (read_type s) r.old.left.now) st.new r.new.left.now result }
    ensures within { Within r.old.left.now r.new.left.now }
{
    let ty = read_type(st, r, known, 64, false)?;
    Ok(ty.map(|t| What::Bind(Bind::IN(t))))
}

pub fn read_xp(st: &mut State<'_>, r: &mut Reader, known: u32) -> Result<Option<What>, Refusal>
    requires { Arities (tables st.old).structs }
    ensures is { (names : List ℕ) → FieldsAre names st.old known (λ s. read_one XP (read_type s) r.old.left.now) st.new r.new.left.now result }
    ensures within { Within r.old.left.now r.new.left.now }
{
    let ty = read_type(st, r, known, 64, false)?;
    Ok(ty.map(|t| What::XP(t)))
}

pub fn read_two(
    st: &mut State<'_>,
    r: &mut Reader,
    known: u32,
    m: TwoMark,
) -> Result<Option<What>, Refusal>
    requires { Arities (tables st.old).structs }
    ensures is { (names : List ℕ) → FieldsAre names st.old known (λ s. read_two (two_record m) (read_type s) (read_type s) r.old.left.now) st.new r.new.left.now result }
    ensures within { Within r.old.left.now r.new.left.now }
{
    let lhs = read_type(st, r, known, 64, false)?;
    let rhs = read_type(st, r, known, 64, lhs.is_none())?;
    let first = lhs.unwrap_or(0);
    Ok(rhs.map(|second| What::Bind(Bind::Two(m, first, second))))
}

// ---- one type, counted and not placed

pub fn read_rm<S: ReadState>(st: &S, r: &mut Reader, known: u32) -> Result<Option<What>, Refusal>
    requires few_params { Arities (tables (S.state st.now)).structs }
    requires short { length r.old.left.now ≤ 4096 }
    ensures is { (names : List ℕ) → FieldsAre names (S.state st.now) known (λ s. read_one RM (read_type s) r.old.left.now) (S.state st.now) r.new.left.now result }
    ensures within { Within r.old.left.now r.new.left.now }
{
    let sums = count_type(st, r, known, 64, false)?;
    Ok(Some(What::Add(Add::RM(sums))))
}

// ---- numbers, and a type or none

pub fn read_loc(r: &mut Reader, m: LocMark) -> Result<Option<What>, Refusal>
    ensures is { (st : Table) (known : ℕ) (names : List ℕ) → FieldsAre names st known (λ s. read_one (loc_record m) read_u32 r.old.left.now) st r.new.left.now result }
    ensures within { Within r.old.left.now r.new.left.now }
{
    let loc = r.u32()?;
    Ok(Some(What::Add(Add::Loc(m, loc))))
}

// How many bits, from 1 to 256: tested when both bytes are read.
fn read_bits(r: &mut Reader) -> Result<u16, Refusal>
    ensures is { read result r.new.left.now ≡ read_bits r.old.left.now }
    ensures within { Within r.old.left.now r.new.left.now }
{
    let bits = r.u16()?;
    match bits {
        1..=256 => Ok(bits),
        _ => Err(Refusal::Malformed),
    }
}

pub fn read_nl(r: &mut Reader) -> Result<Option<What>, Refusal>
    ensures is { (st : Table) (known : ℕ) (names : List ℕ) → FieldsAre names st known (λ s. read_two NL read_u32 read_bits r.old.left.now) st r.new.left.now result }
    ensures within { Within r.old.left.now r.new.left.now }
{
    let loc = r.u32()?;
    let bits = read_bits(r)?;
    Ok(Some(What::Add(Add::NL(loc, bits))))
}

pub fn read_sn(r: &mut Reader, known: u32) -> Result<Option<What>, Refusal>
    ensures is { (st : Table) (names : List ℕ) → FieldsAre names st known (λ s. read_two SN (name_below (taken s)) read_u32 r.old.left.now) st r.new.left.now result }
    ensures within { Within r.old.left.now r.new.left.now }
{
    let v = r.name_below(known)?;
    let loc = r.u32()?;
    Ok(Some(What::Bind(Bind::SN(TVar(v), loc))))
}

pub fn read_loc_type(
    st: &mut State<'_>,
    r: &mut Reader,
    known: u32,
    m: LocTypeMark,
) -> Result<Option<What>, Refusal>
    requires { Arities (tables st.old).structs }
    ensures is { (names : List ℕ) → FieldsAre names st.old known (λ s. read_two (loc_type_record m) read_u32 (read_type s) r.old.left.now) st.new r.new.left.now result }
    ensures within { Within r.old.left.now r.new.left.now }
{
    let loc = r.u32()?;
    let ty = read_type(st, r, known, 64, false)?;
    Ok(ty.map(|t| What::Add(Add::LocType(m, loc, t))))
}

// A kind's byte, from 0 to 2.
fn read_kind(r: &mut Reader) -> Result<NumericKind, Refusal>
    ensures is { read_as kind_of result r.new.left.now ≡ read_kind r.old.left.now }
    ensures within { Within r.old.left.now r.new.left.now }
{
    match r.u8()? {
        0 => Ok(NumericKind::Numeric),
        1 => Ok(NumericKind::Bits),
        2 => Ok(NumericKind::Ordered),
        _ => Err(Refusal::Malformed),
    }
}

pub fn read_nc(st: &mut State<'_>, r: &mut Reader, known: u32) -> Result<Option<What>, Refusal>
    requires { Arities (tables st.old).structs }
    ensures is { (names : List ℕ) → FieldsAre names st.old known (λ s. read_three NC read_u32 read_kind (read_type s) r.old.left.now) st.new r.new.left.now result }
    ensures within { Within r.old.left.now r.new.left.now }
{
    let loc = r.u32()?;
    let kind = read_kind(r)?;
    let ty = read_type(st, r, known, 64, false)?;
    Ok(ty.map(|t| What::Add(Add::NC(loc, kind, t))))
}

// ---- a struct's declaration

// A byte for each of so many parameters.
fn read_params(r: &mut Reader, many: u8) -> Result<Params, Refusal>
    requires { many ≤ 8 }
    ensures is { read_as params_of result r.new.left.now ≡ times many (byte_to 31) r.old.left.now }
    ensures few { IfOk result (λ ps. ps.many ≤ 8) }
    ensures within { Within r.old.left.now r.new.left.now }
{
    let mut bytes = [0; 8];
    for i in 0..usize::from(many) {
        bytes[i] = r.byte_to(31)?;
    }
    Ok(Params { bytes, many })
}

pub fn read_sd(r: &mut Reader) -> Result<Option<What>, Refusal>
    ensures is { (st : Table) (known : ℕ) (names : List ℕ) → FieldsAre names st known (λ s. read_SD s r.old.left.now) st r.new.left.now result }
    ensures within { Within r.old.left.now r.new.left.now }
{
    let abilities = AbilitySet(r.byte_to(15)?);
    let many = r.byte_to(8)?;
    let params = read_params(r, many)?;
    Ok(Some(What::SD(abilities, params)))
}
