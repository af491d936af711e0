// One record from the caller's bytes: its mark and fields read from left to right (5, 6, 18), its types placed as nodes (7).
#![tactic(auto)]

ghost use Rattle.std.specs.Prelude.{◌≡◌, List, ℕ, ◌≤◌, length};
ghost use Rattle.definition.specs.Reader.{give, go_on, times, name_below};
ghost use Rattle.definition.specs.Store.{taken};
ghost use Rattle.definition.specs.Trees.{read_type};
ghost use Rattle.definition.specs.Record.{TS, MJ, KP, read_fields, read_pair, read_TS, read_case_pair, read_MJ, read_KP};
ghost use Rattle.table.specs.Did.{tables};
ghost use Rattle.table.specs.declared.state.State.{State as Table};
ghost use Rattle.cursor.specs.Words.{Within};
ghost use Rattle.heads.specs.Fields.{Arities};
ghost use Rattle.marks.specs.Marks.{reader_of};
ghost use Rattle.fields.specs.Noded.{FieldsAre, RecordIs};

use cursor::Reader;
use fields::{
    Fields, Look, Pairs, What, read_in, read_loc, read_loc_type, read_look, read_nc, read_nl,
    read_rm, read_sd, read_sn, read_two, read_xp,
};
use marks::{RecordMark, mark_of};
use names::TParamID;
use reader::read_type;
use refusals::Refusal;
use table::state::State;

// ---- pairs of an id and a type, and a last type

fn read_pairs(
    st: &mut State<'_>,
    r: &mut Reader,
    known: u32,
    many: u8,
) -> Result<Option<What>, Refusal>
    requires few_params { Arities (tables st.old).structs }
    requires few { many ≤ 8 }
    ensures is { (names : List ℕ) → FieldsAre names st.old known (λ s. go_on (times many (read_pair s) r.old.left.now) (λ pairs l. go_on (read_type s l) (λ t. give (TS pairs t)))) st.new r.new.left.now result }
    ensures within { Within r.old.left.now r.new.left.now }
{
    let mut over = false;
    let mut ids = [TParamID(0); 8];
    let mut nodes: [u32; 8] = [0; 8];
    for i in 0..usize::from(many) {
        let id = r.u32()?;
        let ty = read_type(st, r, known, 64, over)?;
        over = ty.is_none();
        ids[i] = TParamID(id);
        nodes[i] = ty.unwrap_or(0);
    }
    let last = read_type(st, r, known, 64, over)?;
    let pairs = Pairs {
        ids,
        nodes,
        many: u32::from(many),
    };
    Ok(last.map(|t| What::Look(Look::TS(pairs, t))))
}

fn read_ts(st: &mut State<'_>, r: &mut Reader, known: u32) -> Result<Option<What>, Refusal>
    requires { Arities (tables st.old).structs }
    ensures is { (names : List ℕ) → FieldsAre names st.old known (λ s. read_TS s r.old.left.now) st.new r.new.left.now result }
    ensures within { Within r.old.left.now r.new.left.now }
{
    let many = r.byte_to(8)?;
    read_pairs(st, r, known, many)
}

// ---- pairs of two types, each with its case

// Of each pair its case and its two nodes are put into the list.
// Refused (must-fail/): the second node in the first's place (second_for_first).
fn read_cases(
    st: &mut State<'_>,
    r: &mut Reader,
    known: u32,
    names: &mut [u16],
    many: u8,
) -> Result<Option<What>, Refusal>
    requires few_params { Arities (tables st.old).structs }
    requires few { (many ≤ 15) × (256 ≤ length names.old) }
    ensures is { FieldsAre names.new st.old known (λ s. go_on (times many (read_case_pair s) r.old.left.now) (λ pairs. give (MJ pairs))) st.new r.new.left.now result }
    ensures within { Within r.old.left.now r.new.left.now }
{
    let mut over = false;
    for i in 0..usize::from(many) {
        let case = r.byte_to(1)?;
        let lhs = read_type(st, r, known, 64, over)?;
        let rhs = read_type(st, r, known, 64, lhs.is_none())?;
        over = rhs.is_none();
        names[3 * i] = u16::from(case);
        names[3 * i + 1] = lhs.unwrap_or(0) as u16;
        names[3 * i + 2] = rhs.unwrap_or(0) as u16;
    }
    if over {
        return Ok(None);
    }
    Ok(Some(What::MJ(u32::from(many))))
}

// How many pairs there are, 1 to 15, and these.
// Refused: 16 of them (sixteen_pairs).
fn read_many(
    st: &mut State<'_>,
    r: &mut Reader,
    known: u32,
    names: &mut [u16],
) -> Result<Option<What>, Refusal>
    requires few_params { Arities (tables st.old).structs }
    requires list { 256 ≤ length names.old }
    ensures is { FieldsAre names.new st.old known (λ s. read_MJ s r.old.left.now) st.new r.new.left.now result }
    ensures within { Within r.old.left.now r.new.left.now }
{
    let many = r.u8()?;
    match many {
        1..=15 => read_cases(st, r, known, names, many),
        _ => Err(Refusal::Malformed),
    }
}

// ---- variables by number

// They are put into the list.
// Refused: all in the first place (one_place_for_all).
fn read_names(
    r: &mut Reader,
    known: u32,
    names: &mut [u16],
    many: u8,
) -> Result<Option<What>, Refusal>
    requires { (256 ≤ length names.old) × (many ≤ 255) }
    ensures is { (st : Table) → FieldsAre names.new st known (λ s. go_on (times many (name_below (taken s)) r.old.left.now) (λ listed. give (KP listed))) st r.new.left.now result }
    ensures within { Within r.old.left.now r.new.left.now }
{
    for i in 0..usize::from(many) {
        let v = r.name_below(known)?;
        names[i] = v;
    }
    Ok(Some(What::KP(u32::from(many))))
}

// How many there are, and these.
fn read_keep(r: &mut Reader, known: u32, names: &mut [u16]) -> Result<Option<What>, Refusal>
    requires { 256 ≤ length names.old }
    ensures is { (st : Table) → FieldsAre names.new st known (λ s. read_KP s r.old.left.now) st r.new.left.now result }
    ensures within { Within r.old.left.now r.new.left.now }
{
    let many = r.u8()?;
    read_names(r, known, names, many)
}

// ---- the whole record

// The fields of a mark: one arm for each form of marks.
fn fields_of(
    st: &mut State<'_>,
    r: &mut Reader,
    known: u32,
    names: &mut [u16],
    mark: RecordMark,
) -> Result<Option<What>, Refusal>
    requires few_params { Arities (tables st.old).structs }
    requires short { length r.old.left.now ≤ 4096 }
    requires list { 256 ≤ length names.old }
    ensures is { FieldsAre names.new st.old known (λ s. reader_of (Some mark) s r.old.left.now) st.new r.new.left.now result }
    ensures within { Within r.old.left.now r.new.left.now }
{
    match mark {
        RecordMark::SD => read_sd(r),
        RecordMark::SN => read_sn(r, known),
        RecordMark::TS => read_ts(st, r, known),
        RecordMark::IN => read_in(st, r, known),
        RecordMark::NC => read_nc(st, r, known),
        RecordMark::SV => Ok(Some(What::SV)),
        RecordMark::RM => read_rm(st, r, known),
        RecordMark::XP => read_xp(st, r, known),
        RecordMark::NL => read_nl(r),
        RecordMark::MJ => read_many(st, r, known, names),
        RecordMark::KP => read_keep(r, known, names),
        RecordMark::Loc(m) => read_loc(r, m),
        RecordMark::Look(m) => read_look(st, r, known, m),
        RecordMark::Two(m) => read_two(st, r, known, m),
        RecordMark::LocType(m) => read_loc_type(st, r, known, m),
    }
}

// The mark, and its fields.
fn read_fields(
    st: &mut State<'_>,
    r: &mut Reader,
    known: u32,
    names: &mut [u16],
) -> Result<Option<What>, Refusal>
    requires few_params { Arities (tables st.old).structs }
    requires short { length r.old.left.now ≤ 4096 }
    requires list { 256 ≤ length names.old }
    ensures is { FieldsAre names.new st.old known (λ s. read_fields s r.old.left.now) st.new r.new.left.now result }
    ensures within { Within r.old.left.now r.new.left.now }
{
    let first = r.u8()?;
    let second = r.u8()?;
    let Some(mark) = mark_of(u32::from(first), u32::from(second)) else {
        return Err(Refusal::Malformed);
    };
    fields_of(st, r, known, names, mark)
}

// The record that starts at place `start`. After 5, 6 and 18 the place says nothing. The nodes of MJ's pairs go into `names`, lent since `Fields` is
// copied for every record.
pub fn read_record(st: &mut State<'_>, b: &[u8], start: usize, names: &mut [u16]) -> Fields
    requires { Arities (tables st.old).structs × ((start ≤ length b.now) × (256 ≤ length names.old)) }
    ensures { RecordIs names.new st.old b.now start st.new result }
{
    let known = st.used.vars;
    let mut r = Reader::new(&b[start..]);
    let long = r.left.len();
    let read = read_fields(st, &mut r, known, names);
    let next = start + long.saturating_sub(r.left.len());
    Fields { read, next }
}
