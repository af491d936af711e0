// MJ: its pairs answered one behind the other, each in the state that the one before it left.
#![tactic(auto)]

ghost use Rattle.std.specs.Prelude.{◌≡◌, List, ◌∷◌, ℕ, ◌+◌, ◌*◌, ◌≤◌, ◌<◌, length};
ghost use Rattle.definition.specs.Write.{u16 as bytes-u16};
ghost use Rattle.writer.specs.Bytes.{Wrote};
ghost use Rattle.snapshot.specs.Snap.{Saved};
ghost use Rattle.snapshot.specs.Noted.{Noted};
ghost use Rattle.arms.specs.Arms.{case_of as arm_case};
ghost use Rattle.fields.specs.Noded.{case_of, ManyIn};
ghost use Rattle.many.specs.Turns.{InRange, PairIn, StandsAt, PairAnswered, ManyAnswered};

use arms::TypingCase;
use payload::{Answer, as_left};
use snapshot::before::Before;
use snapshot::save_vars;
use table::Touched;
use table::state::State;
use writer::{put_bytes, put_u16};

// How far behind the begin of a pair's bytes its payload stands: behind its number and its length.
const PAYLOAD_AT: usize = 3;

#[derive(Clone, Copy)]
struct Pair {
    case: TypingCase,
    lhs: u32,
    rhs: u32,
}

// ---- pairs in the list of names

fn case_of(n: u16) -> TypingCase
    ensures { arm_case result ≡ case_of n }
{
    match n {
        1 => TypingCase::Subtype,
        _ => TypingCase::Join,
    }
}

fn pair_at(names: &[u16], i: usize) -> Pair
    requires { (i < 15) × (256 ≤ length names.now) }
    ensures { StandsAt names.now i result }
{
    Pair {
        case: case_of(names[3 * i]),
        lhs: u32::from(names[3 * i + 1]),
        rhs: u32::from(names[3 * i + 2]),
    }
}

// ---- the answers

// A pair's number and the length of its payload, low byte first; the place after them.
// Refused (must-fail/): the length's high byte first (high_byte_first).
fn put_head(buf: &mut [u8], at: usize, number: u32, len: usize) -> usize
    requires { (number < 256) × ((len < 65536) × (at + 3 ≤ length buf.old)) }
    ensures { Wrote buf.old at (number ∷ bytes-u16 len) buf.new result }
{
    let next = put_bytes(buf, at, &[number as u8]);
    put_u16(buf, next, len as u32)
}

// One pair, answered as JN or SU from place `at` on; the place after it. From the state before it on, whose rows are saved.
// Refused: rows thought saved that a pair bound (touched_forgotten), a payload or the next pair one byte late (payload_one_late, next_one_late).
fn answer_from(
    st: &mut State<'_>,
    before: Before<'_>,
    pair: Pair,
    buf: &mut [u8],
    at: usize,
) -> usize
    ghost w0: { List ℕ }
    requires entry { (w0 ≡ st.old.words.now) × ((before.used ≡ st.old.used) × ((st.old.saved ≡ st.old.used.vars) × Saved st.old.words.now st.old.used before.saved.now)) }
    requires pair_in { PairIn st.old.used.nodes pair × InRange st.old }
    requires room { at + 4099 ≤ length buf.old }
    ensures { PairAnswered st.old pair at buf.old st.new before.entry.saved.now buf.new result }
{
    let ran = run::run_case(st, pair.case, pair.lhs, pair.rhs);
    let a = answer::settle(st, before, ran, &mut buf[at + PAYLOAD_AT..]);
    put_head(buf, at, a.number, a.len) + a.len
}

// What a pair goes back to are the rows and the counts before it.
// Refused: the counts before the record (undone_to_the_record).
fn answer_pair(
    st: &mut State<'_>,
    saved: &mut [u32],
    pair: Pair,
    buf: &mut [u8],
    at: usize,
) -> usize
    requires pair_in { PairIn st.old.used.nodes pair × InRange st.old }
    requires noted { (5120 ≤ length saved.old) × Noted st.old saved.old }
    requires room { at + 4099 ≤ length buf.old }
    ensures { PairAnswered st.old pair at buf.old st.new saved.new buf.new result }
{
    save_vars(st, saved);
    let before = Before {
        used: st.used,
        saved,
        touched: Touched::Nothing,
    };
    answer_from(st, before, pair, buf, at)
}

// The answer of MJ: the first n pairs of the list. It is always 0, and each pair has room.
pub fn answer_pairs(
    st: &mut State<'_>,
    saved: &mut [u32],
    names: &[u16],
    n: u32,
    buf: &mut [u8],
) -> Answer
    requires pairs_in { (n ≤ 15) × ((256 ≤ length names.now) × (ManyIn st.old.used.nodes names.now n × InRange st.old)) }
    requires noted { (5120 ≤ length saved.old) × Noted st.old saved.old }
    requires room { 61485 ≤ length buf.old }
    ensures { ManyAnswered st.old names.now n buf.old st.new saved.new buf.new result }
{
    let mut at = 0;
    for i in 0..n as usize {
        at = answer_pair(st, saved, pair_at(names, i), buf, at);
    }
    as_left(st.used, 0, at)
}
