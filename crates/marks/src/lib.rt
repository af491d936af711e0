// A record's mark: two letters, in ASCII.
#![tactic(auto)]

ghost use Rattle.std.specs.Prelude.{◌≡◌};
ghost use Rattle.definition.specs.Types as d;
ghost use Rattle.definition.specs.Record.{by_mark, fields_of};
ghost use Rattle.marks.specs.Marks.{reader_of};

// ---- marks by form: those of one form have the same fields, put to the same use

// A location; rows are taken.
#[derive(Clone, Copy)]
pub enum LocMark {
    FV,
    NV,
}

// A type, only looked at.
#[derive(Clone, Copy)]
pub enum LookMark {
    UF,
    RD,
    CN,
    UL,
}

// Two types, joined.
#[derive(Clone, Copy)]
pub enum TwoMark {
    JN,
    SU,
    JL,
}

// A location and a type; a constraint is listed.
#[derive(Clone, Copy)]
pub enum LocTypeMark {
    BC,
    SC,
}

// ---- a record's mark

// The two bytes that a record begins with.
#[derive(Clone, Copy)]
pub enum RecordMark {
    SD,
    SN,
    TS,
    IN,
    NC,
    SV,
    RM,
    XP,
    NL,
    MJ,
    KP,
    Loc(LocMark),
    Look(LookMark),
    Two(TwoMark),
    LocType(LocTypeMark),
}

// The letters, as numbers of bytes.
const B: u32 = b'B' as u32;

const C: u32 = b'C' as u32;

const D: u32 = b'D' as u32;

const F: u32 = b'F' as u32;

const I: u32 = b'I' as u32;

const J: u32 = b'J' as u32;

const K: u32 = b'K' as u32;

const L: u32 = b'L' as u32;

const M: u32 = b'M' as u32;

const N: u32 = b'N' as u32;

const P: u32 = b'P' as u32;

const R: u32 = b'R' as u32;

const S: u32 = b'S' as u32;

const T: u32 = b'T' as u32;

const U: u32 = b'U' as u32;

const V: u32 = b'V' as u32;

const X: u32 = b'X' as u32;

// The mark that these letters are, if any. For speed a match, which tests few of them, and no loop over rows of letters.
#[tactic(auto, unfolding(definition::specs::Record::by_mark, definition::specs::Record::fields_of))]
pub fn mark_of(first: u32, second: u32) -> Option<RecordMark>
    ensures { (s : d.State) → reader_of result s ≡ fields_of (by_mark s) first second }
{
    match (first, second) {
        (S, D) => Some(RecordMark::SD),
        (F, V) => Some(RecordMark::Loc(LocMark::FV)),
        (N, V) => Some(RecordMark::Loc(LocMark::NV)),
        (S, N) => Some(RecordMark::SN),
        (J, N) => Some(RecordMark::Two(TwoMark::JN)),
        (S, U) => Some(RecordMark::Two(TwoMark::SU)),
        (U, F) => Some(RecordMark::Look(LookMark::UF)),
        (R, D) => Some(RecordMark::Look(LookMark::RD)),
        (T, S) => Some(RecordMark::TS),
        (I, N) => Some(RecordMark::IN),
        (N, C) => Some(RecordMark::NC),
        (B, C) => Some(RecordMark::LocType(LocTypeMark::BC)),
        (S, C) => Some(RecordMark::LocType(LocTypeMark::SC)),
        (S, V) => Some(RecordMark::SV),
        (R, M) => Some(RecordMark::RM),
        (C, N) => Some(RecordMark::Look(LookMark::CN)),
        (X, P) => Some(RecordMark::XP),
        (N, L) => Some(RecordMark::NL),
        (M, J) => Some(RecordMark::MJ),
        (U, L) => Some(RecordMark::Look(LookMark::UL)),
        (J, L) => Some(RecordMark::Two(TwoMark::JL)),
        (K, P) => Some(RecordMark::KP),
        _ => None,
    }
}
