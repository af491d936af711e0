// One record of a sound state: read, placed, run and answered; a refusal leaves all as at entry.
#![tactic(auto)]

ghost use Rattle.std.specs.Prelude.{◌≡◌, List, ℕ, ◌≤◌, ◌<◌, length, get_or, take, drop};
ghost use Rattle.definition.specs.Step.{least_buffer};
ghost use Rattle.definition.specs.Write.{IsBytes};
ghost use Rattle.snapshot.specs.Snap.{Saved};
ghost use Rattle.snapshot.specs.Noted.{Noted};
ghost use Rattle.sound.specs.Lent.{used_of};
ghost use Rattle.fields.specs.Noded.{declare, noded, params_of, WhatIn};
ghost use Rattle.step.specs.Trusted.{StandsIn, wants, Steps, Leaves, Splits};
ghost use Rattle.keep.specs.Keeps.{AsSound};
ghost use Rattle.step.specs.Replies.{Begins, Ends, KeptBy};

use canonical::Spelling;
use fields::{Look, Params, What};
use marks::LookMark;
use names::AbilitySet;
use payload::{Answer, as_left};
use snapshot::before::Before;
use table::state::State;
use table::{Touched, Used, wide};
use verdict::{left_over, padded, place_after, row_for, verdict_of};

// How long the list is that is lent beside the state, for what a record has of names.
pub const NAMES: usize = 256;

// One record's answer, and where the rest of the stream begins.
#[derive(Clone, Copy)]
pub struct Stepped {
    pub number: u32,
    pub len: usize,
    pub next: usize,
}

fn with_next(a: Answer, next: usize) -> Stepped
    ensures { result ≡ record { number = a.number; len = a.len; next = next } }
{
    Stepped {
        number: a.number,
        len: a.len,
        next,
    }
}

// ---- SD

// The bytes go into the row of the struct's number. Not inlined, so that no other record clears what it keeps.
#[inline(never)]
fn answer_declared(
    st: &mut State<'_>,
    before: Before<'_>,
    params: &mut [[u8; 8]; 256],
    abilities: AbilitySet,
    own: Params,
    buf: &mut [u8],
) -> Answer
    ghost w0: { List ℕ }
    requires room { (own.many ≤ 8) × (4096 ≤ length buf.old) }
    requires begins { Begins w0 before.used before.saved.now params.old st.old (declare abilities.0 (params_of own)) }
    ensures { Ends w0 before.entry.used before.entry.saved.now params.old st.old (declare abilities.0 (params_of own)) buf.old st.new params.new before.entry.saved.now buf.new result }
{
    let used = st.used;
    let ran = run::run_declare(st, abilities, u32::from(own.many));
    let number = ran.result.ok();
    let a = answer::settle(st, before, ran, buf);
    let n = row_for(number, a, used);
    run::put_row(params, n, padded(own));
    a
}

// ---- KP

// The first n names are those that it lists. Not inlined, so that keep's tables are in no other record's frame.
#[inline(never)]
fn answer_kept(st: &mut State<'_>, names: &[u16], n: u32, buf: &mut [u8]) -> Answer
    requires known { (n ≤ length names.now) × ((k : ℕ) → k < n → get_or names.now k 0 < st.old.used.vars) }
    requires as_sound { AsSound st.old × (4096 ≤ length buf.old) }
    ensures { KeptBy st.old st.new (take n names.now) buf.old buf.new result }
{
    let len = keep::keep_listed(st, names, wide(n), buf);
    as_left(st.used, 0, len)
}

// ---- what was read

// What was read and placed is run and answered. RD, CN and XP are told from the placed state, so no call runs them. `entry` and `saved`: what an answer
// goes back to; MJ's pairs save anew.
fn answer_placed(
    st: &mut State<'_>,
    entry: Used,
    saved: &mut [u32],
    params: &mut [[u8; 8]; 256],
    names: &[u16],
    what: What,
    buf: &mut [u8],
) -> Answer
    ghost w0: { List ℕ }
    requires room { (5120 ≤ length saved.old) × ((256 ≤ length names.now) × (WhatIn names.now st.old.used.nodes what × (wants what ≤ length buf.old))) }
    requires begins { Begins w0 entry saved.old params.old st.old (noded names.now what) }
    ensures { Ends w0 entry saved.old params.old st.old (noded names.now what) buf.old st.new params.new saved.new buf.new result }
{
    let before = Before {
        used: entry,
        saved,
        touched: Touched::Nothing,
    };
    let ran = match what {
        What::MJ(n) => return many::answer_pairs(st, saved, names, n, buf),
        What::KP(n) => return answer_kept(st, names, n, buf),
        What::SD(abilities, own) => {
            return answer_declared(st, before, params, abilities, own, buf);
        }
        What::SV => return solve::solve(st, params, before.saved, buf),
        What::XP(t) => return expand::expand(st, before, params, t, buf),
        What::Bind(x) => run::run_bind(st, params, x),
        What::Look(x) => match x {
            Look::One(m, t) => match m {
                LookMark::UF => run::run_unfold(st, t),
                LookMark::UL => run::run_unfold_links(st, t),
                LookMark::RD => {
                    return answer::settle_ready(st, before, t, Spelling::Located, buf);
                }
                LookMark::CN => {
                    return answer::settle_ready(st, before, t, Spelling::Canonical, buf);
                }
            },
            Look::TS(ps, t) => run::run_tparams(st, ps, t),
        },
        What::Add(x) => run::run_add(st, x),
    };
    answer::settle(st, before, ran, buf)
}

// ---- the record

// From the state at entry on, whose variables are saved.
fn step_from(
    st: &mut State<'_>,
    entry: Used,
    saved: &mut [u32],
    params: &mut [[u8; 8]; 256],
    stream: &[u8],
    at: usize,
    whole: bool,
    names: &mut [u16],
    buf: &mut [u8],
) -> Stepped
    ghost w0: { List ℕ }
    requires entry { (w0 ≡ st.old.words.now) × ((entry ≡ st.old.used) × ((st.old.saved ≡ st.old.used.vars) × Saved st.old.words.now st.old.used saved.old)) }
    requires stands { StandsIn st.old params.old × (IsBytes stream.now × ((at ≤ length stream.now) × (least_buffer (drop at stream.now) ≤ length buf.old))) }
    requires list { (5120 ≤ length saved.old) × (256 ≤ length names.old) }
    ensures { Leaves whole st.old params.old stream.now at buf.old st.new params.new buf.new result saved.new }
{
    let f = record::read_record(st, stream, at, names);
    let next = place_after(f.read, at, f.next);
    match verdict_of(f.read, left_over(whole, f.next, stream.len())) {
        Ok(x) => with_next(answer_placed(st, entry, saved, params, names, x, buf), next),
        Err(x) => {
            let before = Before {
                used: entry,
                saved,
                touched: Touched::Nothing,
            };
            with_next(answer::settle_refusal(st, before, x), next)
        }
    }
}

// whole: the record is all that is lent, and bytes left over are 5, which comes before 7; a flag, as the record's call and the job's differ by it alone. Of the rows
// that were saved before only those are saved again that the records since have touched. `names`: what they held says nothing.
pub fn step_trusted(
    st: &mut State<'_>,
    params: &mut [[u8; 8]; 256],
    stream: &[u8],
    at: usize,
    whole: bool,
    saved: &mut [u32],
    names: &mut [u16],
    buf: &mut [u8],
) -> Stepped
    requires stands { StandsIn st.old params.old × (IsBytes stream.now × ((at ≤ length stream.now) × ((5120 ≤ length saved.old) × (least_buffer (drop at stream.now) ≤ length buf.old)))) }
    requires noted { Noted st.old saved.old }
    requires list { 256 ≤ length names.old }
    ensures steps { Steps whole st.old params.old stream.now at buf.old st.new params.new buf.new result }
    ensures noted_next { Noted st.new saved.new }
{
    snapshot::save_vars(st, saved);
    step_from(st, st.used, saved, params, stream, at, whole, names, buf)
}

// ---- the splitter

// From the state at entry on, to which all goes back.
fn rest_from(
    st: &mut State<'_>,
    before: Before<'_>,
    params: &[[u8; 8]; 256],
    stream: &[u8],
    names: &mut [u16],
) -> usize
    ghost w0: { List ℕ }
    requires entry { (w0 ≡ st.old.words.now) × ((before.used ≡ st.old.used) × ((st.old.saved ≡ st.old.used.vars) × Saved st.old.words.now st.old.used before.saved.now)) }
    requires stands { StandsIn st.old params.now × (st.old.used ≡ used_of st.old.words.now) }
    requires list { 256 ≤ length names.old }
    ensures { Splits st.old params.now stream.now st.new result }
{
    let f = record::read_record(st, stream, 0, names);
    snapshot::go_back(st, before);
    st.write_used();
    place_after(f.read, 0, f.next)
}

// How many bytes the record at the head of the stream has, none on 5, 6 and 18; words and counts are as they were.
pub fn rest_trusted(
    st: &mut State<'_>,
    params: &[[u8; 8]; 256],
    stream: &[u8],
    saved: &mut [u32],
    names: &mut [u16],
) -> usize
    requires stands { StandsIn st.old params.now × ((st.old.used ≡ used_of st.old.words.now) × ((5120 ≤ length saved.old) × Noted st.old saved.old)) }
    requires list { 256 ≤ length names.old }
    ensures { Splits st.old params.now stream.now st.new result }
{
    snapshot::save_vars(st, saved);
    let before = Before {
        used: st.used,
        saved,
        touched: Touched::Nothing,
    };
    rest_from(st, before, params, stream, names)
}
