// One lent record of the marks JN, SU, UF and RD, run by the slow engine. What stands around the run is the main engine's.
#![tactic(auto)]

ghost use Rattle.std.specs.Prelude.{◌≡◌, true, false, List, ℕ, ◌≤◌, ◌<◌, length as size, None, Err};
ghost use Rattle.refusals.specs.declared.Refusal.TheVariants.{Malformed};
ghost use Rattle.table.specs.State.{Any};
ghost use Rattle.table.specs.declared.state.Stop.TheVariants.{Refused};
ghost use Rattle.payload.specs.declared.Show.TheVariants.{Nothing};
ghost use Rattle.snapshot.specs.Snap.{Saved};
ghost use Rattle.sound.specs.Lent.{lent_sound};
ghost use Rattle.fields.specs.Noded.{unfolded, ready, two_binds, one_looks, binds, looks, noded, run, WhatIn};
ghost use Rattle.theorems.specs.ReadySpelled.{Located};
ghost use Rattle.run.specs.Dispatch.{RanAs};
ghost use Rattle.definition.specs.Write.{IsBytes};
ghost use Rattle.step.specs.Trusted.{StandsIn};
ghost use Rattle.step.specs.Replies.{Begins, Ends};
ghost use Rattle.engine.specs.Public.{lent_step, answer_of, GivesAnswer};
ghost use Rattle.recheck.specs.Check.{is_checked, check_step};
ghost use Rattle.recheck.specs.Stepped.{Checks, checked};

use answer::Ran;
use engine::{Answered, Unsound};
use fields::{Bind, Look, What};
use history::Past;
use lent::tested;
use limits::MAX_BUFFER;
use marks::{LookMark, TwoMark};
use payload::{Answer, Show};
use refusals::Refusal;
use snapshot::SAVED;
use snapshot::before::Before;
use sound::used_of;
use step::NAMES;
use subst::Unfolded;
use table::state::{State, Stop};
use table::{Touched, WORDS};
use verdict::{left_over, verdict_of};

// ---- the run of each mark

fn shown(a: Result<u32, Stop>, show: Show, kept: bool) -> Ran
    ensures { result ≡ record { result = a; show = show; tail = None; kept = kept } }
{
    Ran {
        result: a,
        show,
        tail: None,
        kept,
    }
}

// Not met: the mark is tested before the record is read.
fn other_mark() -> Ran
    ensures { result ≡ record { result = Err (Refused Malformed); show = Nothing; tail = None; kept = false } }
{
    shown(Err(Stop::Refused(Refusal::Malformed)), Show::Nothing, false)
}

// JN, SU
fn run_two(st: &mut State<'_>, m: TwoMark, lhs: u32, rhs: u32) -> Ran
    requires nodes { (lhs < st.old.used.nodes) × (rhs < st.old.used.nodes) }
    requires mark { checked (run (binds (two_binds m lhs rhs))) ≡ true }
    ensures { RanAs Any st.old st.new result (binds (two_binds m lhs rhs)) }
{
    match m {
        TwoMark::JN => shown(old_join::join(st, lhs, rhs), Show::Node, true),
        TwoMark::SU => shown(old_join::subtype(st, lhs, rhs), Show::Node, true),
        TwoMark::JL => other_mark(),
    }
}

// UF. The histories are loaded from a copy of the words.
// Refused (must-fail/): the type itself (unfolds_to_itself).
fn run_unfold(st: &State<'_>, t: u32) -> Ran
    requires { t < st.now.used.nodes }
    ensures { RanAs Any st.now st.now result (looks (unfolded t)) }
{
    let mut words = [0u32; WORDS];
    let past = Past::start(st, &mut words);
    match old_subst::unfold_type(&past, t) {
        Unfolded::Node(x) => shown(Ok(x), Show::Node, false),
        Unfolded::Anything(loc) => shown(Ok(0), Show::Anything(loc), false),
    }
}

// RD: what it builds is only shown.
// Refused: nodes that stay (ready_kept).
fn run_ready(st: &mut State<'_>, t: u32) -> Ran
    requires { t < st.old.used.nodes }
    ensures { RanAs Any st.old st.new result (looks (ready Located t)) }
{
    shown(old_ready::ready_tvars(st, t), Show::Node, false)
}

fn run_look(st: &mut State<'_>, m: LookMark, t: u32) -> Ran
    requires node { t < st.old.used.nodes }
    requires mark { checked (run (looks (one_looks m t))) ≡ true }
    ensures { RanAs Any st.old st.new result (looks (one_looks m t)) }
{
    match m {
        LookMark::UF => run_unfold(st, t),
        LookMark::RD => run_ready(st, t),
        LookMark::CN | LookMark::UL => other_mark(),
    }
}

// ---- the record

// What was read and placed is run and answered.
// Refused: JN run as SU (JN_as_SU).
fn answer_checked(
    st: &mut State<'_>,
    before: Before<'_>,
    params: &[[u8; 8]; 256],
    names: &[u16],
    what: What,
    buf: &mut [u8],
) -> Answer
    ghost w0: { List ℕ }
    requires room { WhatIn names.now st.old.used.nodes what × (4096 ≤ size buf.old) }
    requires mark { checked (noded names.now what) ≡ true }
    requires begins { Begins w0 before.used before.saved.now params.now st.old (noded names.now what) }
    ensures { Ends w0 before.entry.used before.entry.saved.now params.now st.old (noded names.now what) buf.old st.new params.now before.entry.saved.now buf.new result }
{
    let ran = match what {
        What::Bind(Bind::Two(m, lhs, rhs)) => run_two(st, m, lhs, rhs),
        What::Look(Look::One(m, t)) => run_look(st, m, t),
        _ => other_mark(),
    };
    answer::settle(st, before, ran, buf)
}

// From the state at entry on, whose variables are saved.
fn step_from(
    st: &mut State<'_>,
    before: Before<'_>,
    params: &[[u8; 8]; 256],
    record: &[u8],
    names: &mut [u16],
    buf: &mut [u8],
) -> Answer
    ghost w0: { List ℕ }
    requires entry { (w0 ≡ st.old.words.now) × ((before.used ≡ st.old.used) × ((st.old.saved ≡ st.old.used.vars) × Saved st.old.words.now st.old.used before.saved.now)) }
    requires stands { StandsIn st.old params.now × (IsBytes «record».now × (4096 ≤ size buf.old)) }
    requires mark { (is_checked «record».now ≡ true) × (256 ≤ size names.old) }
    ensures { Checks st.old params.now «record».now buf.old st.new buf.new result }
{
    let f = record::read_record(st, record, 0, names);
    match verdict_of(f.read, left_over(true, f.next, record.len())) {
        Ok(what) => answer_checked(st, before, params, names, what, buf),
        Err(x) => answer::settle_refusal(st, before, x),
    }
}

fn step_checked(
    st: &mut State<'_>,
    params: &[[u8; 8]; 256],
    record: &[u8],
    saved: &mut [u32],
    names: &mut [u16],
    buf: &mut [u8],
) -> Answer
    requires stands { StandsIn st.old params.now × (IsBytes «record».now × (4096 ≤ size buf.old)) }
    requires fresh { (st.old.saved ≡ 0) × ((5120 ≤ size saved.old) × (256 ≤ size names.old)) }
    requires mark { is_checked «record».now ≡ true }
    ensures { Checks st.old params.now «record».now buf.old st.new buf.new result }
{
    snapshot::save_vars(st, saved);
    let before = Before {
        used: st.used,
        saved,
        touched: Touched::Nothing,
    };
    step_from(st, before, params, record, names, buf)
}

// ---- one lent record

// Of one of the four marks, on a sound state.
fn record_checked(
    state: &mut [u32],
    params: &mut [[u8; 8]; 256],
    record: &[u8],
    answer: &mut [u8],
) -> Answered
    requires sound { lent_sound state.old params.old ≡ true }
    requires mark { (is_checked «record».now ≡ true) × (4096 ≤ size answer.old) }
    ensures { GivesAnswer (lent_step state.old params.old «record».now (size answer.old)) answer.old result state.new params.new answer.new }
{
    let used = used_of(state);
    let mut st = State::new(state, used);
    let mut saved = [0u32; SAVED];
    let mut names = [0u16; NAMES];
    let a = step_checked(&mut st, params, record, &mut saved, &mut names, answer);
    st.write_used();
    Answered {
        number: a.number,
        length: a.len as u32,
    }
}

// Whether a record's first two bytes are those of a mark that is run here.
// Refused: CN for RD (CN_for_RD).
#[tactic(auto, unfolding(crate::specs::Check::is_checked))]
pub fn is_checked(record: &[u8]) -> bool
    ensures { result ≡ is_checked «record».now }
{
    record.starts_with(b"JN")
        || record.starts_with(b"SU")
        || record.starts_with(b"UF")
        || record.starts_with(b"RD")
}

// As the main engine's call answers it; any other mark is 5, after 15.
// Refused: a buffer of 4,095 bytes (room_for_4095).
pub fn check_record(
    state: &mut [u32],
    params: &mut [[u8; 8]; 256],
    record: &[u8],
    answer: &mut [u8],
) -> Result<Answered, Unsound>
    ensures { GivesAnswer (check_step state.old params.old «record».now (size answer.old)) answer.old (answer_of result) state.new params.new answer.new }
{
    if answer.len() < MAX_BUFFER {
        return Err(Unsound);
    }
    tested(state, params)?;
    if !is_checked(record) {
        return Ok(Answered {
            number: Refusal::Malformed.number(),
            length: 0,
        });
    }
    Ok(record_checked(state, params, record, answer))
}
