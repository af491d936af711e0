// typing/core.rs: the ends of all chains, and the test for a type that runs into itself.
// Changed from the source that NOTICE names: ported to Rattle.
#![tactic(auto)]

ghost use Rattle.std.specs.Prelude.{◌≡◌, true, false, List, ◌+◌, ◌<◌, ◌≤◌, length};
ghost use Rattle.definition.specs.Types as d;
ghost use Rattle.definition.specs.Subst.{reaches_itself};
ghost use Rattle.table.specs.Did.{held};
ghost use Rattle.ends.specs.Known.{EndsKnown};
ghost use Rattle.ends.specs.Ends.{EndsBy, Noted, Meets};

mod chains;

pub use chains::{Chains, Led};
use names::TVar;
use table::read::ReadState;

// Where following a chain led to: one more than the number of its end, and how many bindings it and the noted chains have at most.
#[derive(Clone, Copy)]
struct Meeting {
    end: u32,
    long: u32,
}

// ---- the ends of all chains

// What is noted of a variable is one more than the number of the variable at its chain's end; 0 is none. Words, and no
// Options, so that a table is 4 KiB of zeros at first.

fn one_more(v: TVar) -> u32
    ensures { (result ≡ v.0 + 1) × (result ≤ 65536) }
{
    u32::from(v.0) + 1
}

// Goes from v to its end, or to a variable whose end is noted. The chains that are noted have at most `longest` bindings:
// counted, since forward_tvar takes no more steps than there are variables.
fn meet<S: ReadState>(st: &S, v: TVar, longest: u32, ends: &[u32]) -> Option<Meeting>
    requires { Noted (S.state st.now) longest ends.now }
    ensures { Meets (S.state st.now) v.0 longest result }
{
    let mut cur = v;
    for long in longest..st.used().vars + 1 {
        let known = table::noted(ends, cur);
        if 0 < known {
            return Some(Meeting { end: known, long });
        }
        let Some(x) = subst::next_of(st, cur) else {
            return Some(Meeting {
                end: one_more(cur),
                long,
            });
        };
        cur = x;
    }
    None
}

// Notes the end x of v's chain for v and its links, up to one whose end is noted.
fn note_chain<S: ReadState>(st: &S, v: TVar, x: u32, long: u32, ends: &mut [u32])
    requires { Noted (S.state st.now) long ends.old × EndsBy (S.state st.now) v.0 long x }
    ensures { Noted (S.state st.now) long ends.new }
{
    let mut cur = v;
    for _ in 0..st.used().vars {
        if 0 < table::noted(ends, cur) {
            return;
        }
        table::note(ends, cur, x);
        let Some(y) = subst::next_of(st, cur) else {
            return;
        };
        cur = y;
    }
}

// Notes v's chain; how many bindings the noted chains have at most is the answer.
fn note_end<S: ReadState>(st: &S, v: TVar, longest: u32, ends: &mut [u32]) -> u32
    requires { (longest ≤ (S.state st.now).used.vars) × Noted (S.state st.now) longest ends.old }
    ensures { (result ≤ (S.state st.now).used.vars) × Noted (S.state st.now) result ends.new }
{
    match meet(st, v, longest, ends) {
        Some(m) => {
            note_chain(st, v, m.end, m.long, ends);
            m.long
        }
        None => longest,
    }
}

// Notes the end of every variable's chain. Each binding is followed twice at most.
pub fn note_ends<S: ReadState>(st: &S, ends: &mut [u32])
    requires { Noted (S.state st.now) 0 ends.old }
    ensures { EndsKnown (S.state st.now) ends.new × (length ends.new ≡ 1024) }
{
    let mut longest: u32 = 0;
    for i in 0..st.used().vars {
        longest = note_end(st, table::tvar(i), longest, ends);
    }
}

// ---- a type that reaches a variable that reaches itself

// A type of at most 64 parts needs no heights, and no ends are noted for it.
pub fn near_over<S: ReadState>(st: &S, t: u32) -> bool
    requires { t < (S.state st.now).used.nodes }
    ensures { result ≡ true → (ds : List d.Struct) → false ≡ reaches_itself (held (S.state st.now) ds) t }
{
    let chains = Chains { st, ends: &[] };
    chains.soon_over(t, st.used().nodes, 64).is_some()
}

// First without tables, which a small type does not need: a guard, since in one boolean with the rest they would be made before it.
pub fn reaches_itself<S: ReadState>(st: &S, t: u32) -> bool
    requires { t < (S.state st.now).used.nodes }
    ensures { (ds : List d.Struct) → result ≡ reaches_itself (held (S.state st.now) ds) t }
{
    if near_over(st, t) {
        return false;
    }
    let mut ends: [u32; 1024] = [0; 1024];
    note_ends(st, &mut ends);
    let chains = Chains { st, ends: &ends };
    chains.never_over(t)
}
