// KP, 02's R-11: what listed variables and the constraints reach stays, and slides down in order of age. core.rs has no such call.
#![tactic(auto)]

pub mod marks;
pub mod numbers;
pub mod places;
pub mod reach;
pub mod slide;
pub mod survivors;

ghost use Rattle.std.specs.Prelude.{◌≡◌, List, ℕ, ◌≤◌, ◌<◌, length, get_or, take};
ghost use Rattle.keep.specs.Keeps.{AsSound, Ready, Clears, Keeps};

use marks::Marks;
use numbers::{Numbers, number_all};
use places::mark_places;
use reach::staying;
use slide::{renumber_constraints, slide_nodes, slide_places, slide_vars};
use survivors::write_survivors;
use table::state::State;
use table::{Touched, Used};

// The rows that were saved are of variables with their old numbers: any may have been touched. Refused (must-fail/): they stand (saved_rows_stand).
fn slide_rows(st: &mut State<'_>, m: &Marks, places: &[bool], new: &Numbers)
    ghost listed: { List ℕ }
    requires { Ready st.old listed m.now places.now new.now }
    ensures { Clears st.old st.new listed }
{
    let u = st.used;
    let w = &mut *st.words;
    let nodes = slide_nodes(w, u.nodes, &m.nodes, new);
    let args = slide_places(w, u.args, places, new);
    let vars = slide_vars(w, u.vars, &m.vars, new);
    renumber_constraints(w, u.constraints, new);
    st.used = Used {
        nodes,
        args,
        vars,
        constraints: u.constraints,
        structs: u.structs,
    };
    st.touched = Touched::Any;
}

// KP of the first n names, of a sound state; how many bytes the payload has. Nothing is refused.
pub fn keep_listed(st: &mut State<'_>, names: &[u16], n: usize, buf: &mut [u8]) -> usize
    ghost listed: { List ℕ }
    requires is { listed ≡ take n names.now }
    requires known { (n ≤ length names.now) × ((k : ℕ) → k < n → get_or names.now k 0 < st.old.used.vars) }
    requires as_sound { AsSound st.old × (4096 ≤ length buf.old) }
    ensures { Keeps st.old st.new listed buf.old buf.new result }
{
    let m = staying(st, names, n);
    let mut places = [false; 4097];
    mark_places(st, &m.nodes, &mut places);
    let new = number_all(&m, &places);
    let len = write_survivors(&m.vars, &new.vars, st.used.vars, buf);
    slide_rows(st, &m, &places, &new);
    len
}
