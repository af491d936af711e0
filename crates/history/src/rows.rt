// The rows of the variables, read into histories before a run and written anew after it. While it goes on, none is read or written.

ghost use Rattle.std.specs.Prelude.{◌≡◌, List, ℕ, [], ◌∷◌, ◌+◌, ◌*◌, ◌<◌, length};
ghost use Rattle.table.specs.Rows.{option_flag, option_word};
ghost use Rattle.table.specs.State.{Lay, Wrote};
ghost use Rattle.history.specs.History.{words_of};
ghost use Rattle.history.specs.Rows.{Loads, LoadedBindings, LoadedMarks, entries_of, InRows, Stores};

use crate::{Binding, Mark, Past};
use snapshot::copy_all;
use table::read::ReadState;
use table::state::State;
use table::{Touched, Used, VAR_WORDS, VARS_AT, wide};

// The entries of both histories.
#[derive(Clone, Copy)]
pub struct Entries {
    pub bindings: [Binding; 5120],
    pub bound: usize,
    pub marks: [Mark; 2048],
    pub marked: usize,
}

// ---- rows are read

// Variable i's binding, if it has one, after those of the variables before it. The answer is how many there are.
fn load_binding(st: &State<'_>, bindings: &mut [Binding; 5120], bound: usize, i: u32) -> usize
    requires { (i < st.now.used.vars) × LoadedBindings st.now i bindings.old bound }
    ensures { LoadedBindings st.now (i + 1) bindings.new result }
{
    match st.bound_at(table::tvar(i)) {
        None => bound,
        Some(node) => {
            bindings[bound] = Binding { tvar: i, node };
            bound + 1
        }
    }
}

// .. its mark and need: entry i.
// Refused (must-fail/): a need that is not loaded (need_not_loaded).
fn load_mark(st: &State<'_>, marks: &mut [Mark; 2048], i: u32)
    requires { (i < st.now.used.vars) × LoadedMarks st.now i marks.old }
    ensures { LoadedMarks st.now (i + 1) marks.new }
{
    let v = table::tvar(i);
    marks[wide(i)] = Mark {
        tvar: i,
        numeric: st.num_loc_at(v),
        need: st.need_at(v),
    };
}

impl<'a> Past<'a> {
    // An entry for each variable that is bound, and one for each mark and need.
    pub fn load(words: &'a mut [u32], used: Used) -> Past<'a>
        requires { Lay words.old used }
        ensures { Loads words.old used result × (result.st.words.ghost_name ≡ words.entry.ghost_name) }
    {
        let st = State::new(words, used);
        let mut bindings = [Binding { tvar: 0, node: 0 }; 5120];
        let mut bound = 0;
        let mut marks = [Mark {
            tvar: 0,
            numeric: None,
            need: 0,
        }; 2048];
        for i in 0..used.vars {
            bound = load_binding(&st, &mut bindings, bound, i);
            load_mark(&st, &mut marks, i);
        }
        Past {
            st,
            bindings,
            bound,
            marks,
            marked: wide(used.vars),
        }
    }

    // .. and of a copy of st's words. The run goes on the copy: of words that a Past lends the prover knows nothing once they are back.
    pub fn start(st: &State<'_>, words: &'a mut [u32]) -> Past<'a>
        requires { length words.old ≡ 24069 }
        ensures { Loads st.now.words.now st.now.used result }
    {
        copy_all(words, st.words);
        Past::load(words, st.used)
    }

    pub fn entries(&self) -> Entries
        ensures { result ≡ entries_of self.now }
    {
        Entries {
            bindings: self.bindings,
            bound: self.bound,
            marks: self.marks,
            marked: self.marked,
        }
    }

    // The words of the run, with the rows that the histories say.
    fn write_words(&self, w: &mut [u32])
        requires { length w.old ≡ 24069 }
        ensures { w.new ≡ words_of self.now.st.words.now self.now.bindings self.now.bound self.now.marks self.now.marked }
    {
        copy_all(w, self.st.words);
        write_back(w, &self.entries());
    }

    // The end of a run that was started on a copy of st's words. Not inlined, so that the entries are in no frame of the run.
    #[inline(never)]
    pub fn store(&self, st: &mut State<'_>)
        ensures { Stores self.now st.old st.new }
    {
        self.write_words(st.words);
        st.used = self.st.used;
        st.touched = Touched::Any;
    }
}

// ---- rows are written

// The words of a variable's row that say what it is bound to.
fn write_binding(w: &mut [u32], b: Binding)
    requires { (length w.old ≡ 24069) × (b.tvar < 1024) }
    ensures { Wrote w.old (16389 + b.tvar * 5) 2 (1 ∷ b.node ∷ []) w.new }
{
    table::write_words(w, VARS_AT + wide(b.tvar) * VAR_WORDS, &[1, b.node]);
}

// .. those of its mark and need.
fn write_mark(w: &mut [u32], m: Mark)
    requires { (length w.old ≡ 24069) × (m.tvar < 1024) }
    ensures { Wrote w.old (16389 + m.tvar * 5 + 2) 3 (option_flag m.numeric ∷ option_word m.numeric ∷ m.need ∷ []) w.new }
{
    let words = [
        u32::from(m.numeric.is_some()),
        m.numeric.unwrap_or(0),
        m.need,
    ];
    table::write_words(w, VARS_AT + wide(m.tvar) * VAR_WORDS + 2, &words);
}

// Each binding, oldest first, so that the newest of a variable stays.
// Refused (must-fail/): an entry not written (first_entry_left), newest first (newest_binding_first).
fn write_bindings(w: &mut [u32], e: &Entries)
    requires { (length w.old ≡ 24069) × InRows e.now }
    ensures { (x : List ℕ) → w.old ≡ words_of x e.now.bindings 0 e.now.marks 0 → w.new ≡ words_of x e.now.bindings e.now.bound e.now.marks 0 }
{
    for i in 0..e.bound {
        write_binding(w, e.bindings[i]);
    }
}

// Refused (must-fail/): newest first (newest_mark_first).
fn write_marks(w: &mut [u32], e: &Entries)
    requires { (length w.old ≡ 24069) × InRows e.now }
    ensures { (x : List ℕ) → w.old ≡ words_of x e.now.bindings e.now.bound e.now.marks 0 → w.new ≡ words_of x e.now.bindings e.now.bound e.now.marks e.now.marked }
{
    for i in 0..e.marked {
        write_mark(w, e.marks[i]);
    }
}

// The rows are those of the histories: blank at first.
// Refused (must-fail/): a row that is not blank (last_row_not_blank).
pub fn write_back(w: &mut [u32], e: &Entries)
    requires { (length w.old ≡ 24069) × InRows e.now }
    ensures { w.new ≡ words_of w.old e.now.bindings e.now.bound e.now.marks e.now.marked }
{
    snapshot::zero_rows::<VAR_WORDS>(w, VARS_AT, 0, 1024);
    write_bindings(w, e);
    write_marks(w, e);
}
