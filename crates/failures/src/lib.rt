// SV's payload: the failures of all constraints in bytes, none of which is refused, sized first and then written.
// Changed from the source that NOTICE names: ported to Rattle.
#![tactic(auto)]

ghost use Rattle.std.specs.Prelude.{◌≤◌, ◌+◌, ◌<◌, length, get_or, ◌≡◌, List, [], ◌∷◌};
ghost use Rattle.table.specs.State.{constraint_of, FoundIn};
ghost use Rattle.table.specs.Did.{held, tables};
ghost use Rattle.table.specs.Known.{Declared};
ghost use Rattle.abilities.specs.Kept.{Knows};
ghost use Rattle.abilities.specs.Rules.{bytes_of, Given};
ghost use Rattle.failing.specs.Failing.{TyIn};
ghost use Rattle.constraints.specs.Lacking.{AllReady, IsAbility, AskedReady};
ghost use Rattle.writer.specs.Bytes.{AllBytes, Capped, Wrote};
ghost use Rattle.failures.specs.Report.{TysIn, row_count};
ghost use Rattle.definition.specs.Types as d;
ghost use Rattle.definition.specs.Constraints.{solve_constraint, failures};

use abilities::ABILITIES;
use constraints::row_of;
use failing::{size_failing, write_failing};
use payload::MAX_PAYLOAD;
use table::Constraint;
use table::read::ReadState;
use table::state::State;

// The loops go by number. Tried over `&ABILITIES[..n]`: it stayed open that its items are n, and each the ability of its row.
fn ability_at(k: usize) -> u8
    requires { k < 4 }
    ensures { IsAbility result × (result ≡ get_or (1 ∷ 2 ∷ 4 ∷ 8 ∷ []) k 0) }
{
    ABILITIES[k]
}

// How many rows may hold a failure: a constraint that asks for no abilities has its own in the first.
fn row_count(c: Constraint) -> usize
    ensures { (result ≡ row_count (constraint_of c)) × (result ≤ 4) }
{
    if matches!(c, Constraint::Ability(_, _, _)) {
        4
    } else {
        1
    }
}

// How many bytes the failures of a constraint have, if no more than `room`.
// Rows and sets are two arguments: parameter bytes stay in no struct, as 01 has them.
fn size_constraint(
    st: &State<'_>,
    params: &[[u8; 8]; 256],
    sets: &[u32],
    c: Constraint,
    room: u32,
) -> Option<u32>
    requires ready { TyIn st.now.used.nodes (constraint_of c) × (AskedReady st.now params.now sets.now (constraint_of c) × (room ≤ 4096)) }
    requires given { (ds : List d.Struct) → Knows st.now params.now ds → Given (solve_constraint (held st.now ds) (constraint_of c)) }
    ensures { FoundIn (room + 1) result × ((ds : List d.Struct) → Knows st.now params.now ds → Capped room (length (bytes_of (solve_constraint (held st.now ds) (constraint_of c)))) result) }
{
    let n = row_count(c);
    let mut left = room;
    for k in 0..n {
        let Some(f) = row_of(st, params, sets, c, ability_at(k)) else {
            continue;
        };
        left -= size_failing(st, f, left)?;
    }
    Some(room - left)
}

// How many bytes the failures have, if no more than 4,096.
pub fn size_failures(st: &State<'_>, params: &[[u8; 8]; 256], sets: &[u32]) -> Option<u32>
    requires ready { TysIn (tables st.now) × AllReady st.now params.now sets.now (tables st.now).constraints }
    requires given { (ds : List d.Struct) → Knows st.now params.now ds → Given (failures (held st.now ds)) }
    ensures { (ds : List d.Struct) → Knows st.now params.now ds → Capped 4096 (length (bytes_of (failures (held st.now ds)))) result }
{
    let mut left = MAX_PAYLOAD;
    for i in 0..st.used.constraints {
        let c = st.constraint_at(i);
        left -= size_constraint(st, params, sets, c, left)?;
    }
    Some(MAX_PAYLOAD - left)
}

// The failures of a constraint, which fit, from byte `at` on.
fn write_constraint(
    st: &State<'_>,
    params: &[[u8; 8]; 256],
    sets: &[u32],
    c: Constraint,
    buf: &mut [u8],
    at: usize,
) -> usize
    requires ready { TyIn st.now.used.nodes (constraint_of c) × (AskedReady st.now params.now sets.now (constraint_of c) × (AllBytes (tables st.now) × Declared st.now.words.now st.now.used params.now)) }
    requires given { (ds : List d.Struct) → Knows st.now params.now ds → Given (solve_constraint (held st.now ds) (constraint_of c)) }
    requires fits { (ds : List d.Struct) → Knows st.now params.now ds → at + length (bytes_of (solve_constraint (held st.now ds) (constraint_of c))) ≤ length buf.old }
    ensures { (ds : List d.Struct) → Knows st.now params.now ds → Wrote buf.old at (bytes_of (solve_constraint (held st.now ds) (constraint_of c))) buf.new result }
{
    let n = row_count(c);
    let mut next = at;
    for k in 0..n {
        let Some(f) = row_of(st, params, sets, c, ability_at(k)) else {
            continue;
        };
        next = write_failing(st, f, buf, next);
    }
    next
}

// The failures, which fit, from byte 0 on; how many bytes they are.
pub fn write_failures(
    st: &State<'_>,
    params: &[[u8; 8]; 256],
    sets: &[u32],
    buf: &mut [u8],
) -> usize
    requires ready { TysIn (tables st.now) × (AllReady st.now params.now sets.now (tables st.now).constraints × (AllBytes (tables st.now) × Declared st.now.words.now st.now.used params.now)) }
    requires given { (ds : List d.Struct) → Knows st.now params.now ds → Given (failures (held st.now ds)) }
    requires fits { (ds : List d.Struct) → Knows st.now params.now ds → length (bytes_of (failures (held st.now ds))) ≤ length buf.old }
    ensures { (ds : List d.Struct) → Knows st.now params.now ds → Wrote buf.old 0 (bytes_of (failures (held st.now ds))) buf.new result }
{
    let mut next: usize = 0;
    for i in 0..st.used.constraints {
        let c = st.constraint_at(i);
        next = write_constraint(st, params, sets, c, buf, next);
    }
    next
}
