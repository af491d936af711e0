// SV: solve_constraints. Numeric variables that nothing decides become u64 or wider, the failures are the payload, and no constraint stays.
// Changed from the source that NOTICE names: ported to Rattle.
#![tactic(auto)]

ghost use Rattle.std.specs.Prelude.{◌≤◌, length, ◌≡◌, List, ℕ};
ghost use Rattle.definition.specs.Types as d;
ghost use Rattle.definition.specs.Constraints.{failures};
ghost use Rattle.table.specs.Did.{held, tables};
ghost use Rattle.table.specs.Known.{Declared};
ghost use Rattle.snapshot.specs.Snap.{Saved};
ghost use Rattle.snapshot.specs.Back.{GrownFrom};
ghost use Rattle.abilities.specs.Kept.{Knows};
ghost use Rattle.abilities.specs.Rules.{Given};
ghost use Rattle.constraints.specs.Lacking.{AllReady};
ghost use Rattle.writer.specs.Bytes.{AllBytes};
ghost use Rattle.failures.specs.Report.{TysIn};
ghost use Rattle.solve.specs.Solves.{HoldsSound, solved, Reports, Solves};

use answer::{Ran, settle, settle_refusal};
use failures::{size_failures, write_failures};
use payload::{Answer, Show, as_left};
use refusals::Refusal;
use snapshot::before::Before;
use table::Touched;
use table::state::State;

// Nothing is refused: the failures as payload, if they fit, and no constraint.
fn report_failures(
    st: &mut State<'_>,
    before: Before<'_>,
    params: &[[u8; 8]; 256],
    sets: &[u32],
    buf: &mut [u8],
) -> Answer
    ghost w0: { List ℕ }
    requires grown { GrownFrom w0 before st.old }
    requires ready { TysIn (tables st.old) × (AllReady st.old params.now sets.now (tables st.old).constraints × (AllBytes (tables st.old) × (Declared st.old.words.now st.old.used params.now × (4096 ≤ length buf.old)))) }
    requires given { (ds : List d.Struct) → Knows st.old params.now ds → Given (failures (held st.old ds)) }
    ensures { Reports w0 before.entry.used st.old params.now st.new buf.old buf.new result solved }
{
    let Some(_) = size_failures(st, params, sets) else {
        return settle_refusal(st, before, Refusal::AnswerTooLong);
    };
    let len = write_failures(st, params, sets, buf);
    constraints::take_constraints(st);
    as_left(st.used, 0, len)
}

// 9 or 16 before anything is sized. Levels and sets are kept for each node, so that each is looked at once for all constraints.
fn solve_abilities(
    st: &mut State<'_>,
    before: Before<'_>,
    params: &[[u8; 8]; 256],
    buf: &mut [u8],
) -> Answer
    ghost w0: { List ℕ }
    requires grown { GrownFrom w0 before st.old }
    requires tys_in { TysIn (tables st.old) × (AllBytes (tables st.old) × (Declared st.old.words.now st.old.used params.now × (4096 ≤ length buf.old))) }
    ensures { Reports w0 before.entry.used st.old params.now st.new buf.old buf.new result solved }
{
    let mut heights: [u16; 2048] = [0; 2048];
    let mut sets: [u32; 2048] = [0; 2048];
    match abilities::check_constraints(st, params, &mut heights, &mut sets) {
        Ok(()) => report_failures(st, before, params, &sets, buf),
        Err(x) => settle_refusal(st, before, x),
    }
}

// The tables are made only where an ability is asked for.
fn solve_all(
    st: &mut State<'_>,
    before: Before<'_>,
    params: &[[u8; 8]; 256],
    buf: &mut [u8],
) -> Answer
    ghost w0: { List ℕ }
    requires grown { GrownFrom w0 before st.old }
    requires tys_in { TysIn (tables st.old) × (AllBytes (tables st.old) × (Declared st.old.words.now st.old.used params.now × (4096 ≤ length buf.old))) }
    ensures { Reports w0 before.entry.used st.old params.now st.new buf.old buf.new result solved }
{
    if abilities::any_asks(st) {
        solve_abilities(st, before, params, buf)
    } else {
        report_failures(st, before, params, &[], buf)
    }
}

// From the state at entry, whose variables are saved.
fn solve_from(
    st: &mut State<'_>,
    before: Before<'_>,
    params: &[[u8; 8]; 256],
    buf: &mut [u8],
) -> Answer
    ghost w0: { List ℕ }
    requires entry { (w0 ≡ st.old.words.now) × (before.used ≡ st.old.used) }
    requires saved { ((st.old.saved ≡ st.old.used.vars) × Saved st.old.words.now st.old.used before.saved.now) × (4096 ≤ length buf.old) }
    requires holds_sound { HoldsSound st.old params.now }
    ensures { Solves st.old params.now st.new buf.old buf.new result }
{
    match constraints::default_num_vars(st, before.saved) {
        Ok(()) => solve_all(st, before, params, buf),
        Err(e) => {
            let ran = Ran {
                result: Err(e),
                show: Show::Nothing,
                tail: None,
                kept: true,
            };
            settle(st, before, ran, buf)
        }
    }
}

// SV. `saved` has the rows of the variables as they are now. Not inlined, so that the tables are in no other record's frame.
#[inline(never)]
pub fn solve(st: &mut State<'_>, params: &[[u8; 8]; 256], saved: &[u32], buf: &mut [u8]) -> Answer
    requires saved { ((st.old.saved ≡ st.old.used.vars) × Saved st.old.words.now st.old.used saved.now) × ((5120 ≤ length saved.now) × (4096 ≤ length buf.old)) }
    requires holds_sound { HoldsSound st.old params.now }
    ensures { Solves st.old params.now st.new buf.old buf.new result }
{
    let before = Before {
        used: st.used,
        saved,
        touched: Touched::Nothing,
    };
    solve_from(st, before, params, buf)
}
