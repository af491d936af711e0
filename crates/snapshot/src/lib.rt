// A snapshot of the variables in use, and its return: after an error bindings and marks are put back, after a refusal all that was taken too.
#![tactic(auto)]

ghost use Rattle.std.specs.Prelude.{◌≡◌, [], ◌+◌, ◌-◌, ◌*◌, ◌≤◌, List, ℕ, length};
ghost use Rattle.table.specs.State.{Lay, Wrote};
ghost use Rattle.table.specs.Touched.{Stay};
ghost use Rattle.table.specs.declared.Touched.TheVariants.{Nothing};
ghost use Rattle.snapshot.specs.Snap.{Above, Saved, PutBack, Sized, GivenBack, Undone};
ghost use Rattle.snapshot.specs.Copied.{CopiedRow, Copied};
ghost use Rattle.snapshot.specs.Back.{rows_of, GrownFrom, WentBack};
ghost use Rattle.snapshot.specs.Noted.{Noted, SavesAll};

pub mod before;

use before::Before;
use table::read::ReadState;
use table::state::State;
use table::{
    ARGS_AT, CONSTRAINT_WORDS, CONSTRAINTS_AT, NODE_WORDS, NODES_AT, STRUCT_WORDS, STRUCTS_AT,
    Touched, Used, VAR_WORDS, VARS_AT,
};

// How many words the variable rows have, all of them.
pub const SAVED: usize = 5120;

// Rows `from` to `to` of a table whose rows have N words, from word `base` on, are zero.
pub fn zero_rows<const N: usize>(w: &mut [u32], base: usize, from: u32, to: u32)
    requires { (from ≤ to) × (base + to * N ≤ length w.old) }
    ensures { Wrote w.old (base + from * N) ((to - from) * N) [] w.new }
{
    w[base + from as usize * N..base + to as usize * N].fill(0);
}

// These words, however many, from place `at` on. Word by word: `copy_from_slice` of a length that is not known is memmove, which the archive for C would ask
// of its host (refused by crates/exports/host/test.sh).
pub fn copy_words(w: &mut [u32], at: usize, words: &[u32])
    requires { at + length words.now ≤ length w.old }
    ensures { Wrote w.old at (length words.now) words.now w.new }
{
    for k in 0..words.len() {
        w[at + k] = words[k];
    }
}

// .. all of as many.
pub fn copy_all(w: &mut [u32], words: &[u32])
    requires { length w.old ≡ length words.now }
    ensures { w.new ≡ words.now }
{
    copy_words(w, 0, words);
}

// ---- rows of variables, from one list of them to another: the words have them from VARS_AT on, what was saved from the start

// The row of variable v, if it is among the first n.
fn copy_row(to: &mut [u32], at: usize, from: &[u32], first: usize, n: u32, v: u32)
    requires { (at + n * 5 ≤ length to.old) × (first + n * 5 ≤ length from.now) }
    ensures { CopiedRow to.old at from.now first n v to.new }
{
    if v < n {
        let k = v as usize * VAR_WORDS;
        to[at + k..at + k + VAR_WORDS].copy_from_slice(&from[first + k..first + k + VAR_WORDS]);
    }
}

// .. those of the noted ones among the first n. Inlined, for speed: mostly none is noted.
#[inline(always)]
fn copy_touched(to: &mut [u32], at: usize, from: &[u32], first: usize, n: u32, touched: Touched)
    requires { (at + n * 5 ≤ length to.old) × (first + n * 5 ≤ length from.now) }
    ensures { Copied to.old at from.now first n touched to.new }
{
    match touched {
        Touched::Nothing => {}
        Touched::One(a) => copy_row(to, at, from, first, n, a),
        Touched::Two(a, b) => {
            copy_row(to, at, from, first, n, a);
            copy_row(to, at, from, first, n, b);
        }
        Touched::Three(a, b, c) => {
            copy_row(to, at, from, first, n, a);
            copy_row(to, at, from, first, n, b);
            copy_row(to, at, from, first, n, c);
        }
        Touched::Any => {
            let long = n as usize * VAR_WORDS;
            copy_words(to, at, &from[first..first + long]);
        }
    }
}

// The rows of the variables in use. Those that were saved before are copied again only where they were touched since. The test is for speed: most
// records find no new variable, and a copy is a call.
fn save_rows(st: &State<'_>, saved: &mut [u32])
    requires { (5120 ≤ length saved.old) × Noted st.now saved.old }
    ensures { Saved st.now.words.now st.now.used saved.new }
{
    let vars = st.used.vars;
    let n = st.saved.min(vars);
    copy_touched(saved, 0, st.words, VARS_AT, n, st.touched);
    if n == vars {
        return;
    }
    let from = n as usize * VAR_WORDS;
    let to = vars as usize * VAR_WORDS;
    copy_words(saved, from, &st.words[VARS_AT + from..VARS_AT + to]);
}

// .. and none is touched yet.
pub fn save_vars(st: &mut State<'_>, saved: &mut [u32])
    requires { (5120 ≤ length saved.old) × Noted st.old saved.old }
    ensures { SavesAll st.old st.new saved.new }
{
    save_rows(st, saved);
    st.saved = st.used.vars;
    st.touched = Touched::Nothing;
}

// .. of a state that is only read: all of them, since it cannot note that they are saved.
// Refused (must-fail/): the last fifth of the rows left out (last_rows_unsaved).
pub fn save_all<S: ReadState>(st: &S, saved: &mut [u32])
    requires { 5120 ≤ length saved.old }
    ensures { Saved (S.state st.now).words.now (S.state st.now).used saved.new }
{
    let long = st.used().vars as usize * VAR_WORDS;
    copy_words(saved, 0, &st.words()[VARS_AT..VARS_AT + long]);
}

// Bindings and marks are as they were saved; variables taken since then are unbound and unmarked.
// By words and counts, as the next two: the words are a state again only where they have grown from what was saved, which go_back asks for.
pub fn put_vars(w: &mut [u32], u: Used, before: Before<'_>)
    requires { Lay w.old u × Above before.used u }
    ensures { PutBack w.old u w.new before.entry.used (rows_of before.entry) × Stay before.entry.touched before.entry.used.vars w.old w.new }
{
    let n = before.used.vars;
    copy_touched(w, VARS_AT, before.saved, 0, n, before.touched);
    zero_rows::<VAR_WORDS>(w, VARS_AT, n, u.vars);
}

// What was taken since then is given back; bindings and marks are left as they are.
pub fn give_back(w: &mut [u32], u: Used, before: Used)
    requires { Sized w.old u × Above before u }
    ensures { GivenBack w.old u w.new before × Stay Nothing before.vars w.old w.new }
{
    zero_rows::<NODE_WORDS>(w, NODES_AT, before.nodes, u.nodes);
    zero_rows::<1>(w, ARGS_AT, before.args, u.args);
    zero_rows::<CONSTRAINT_WORDS>(w, CONSTRAINTS_AT, before.constraints, u.constraints);
    zero_rows::<STRUCT_WORDS>(w, STRUCTS_AT, before.structs, u.structs);
}

// All is as it was.
// Refused (must-fail/): rows taken since then that stay (taken_rows_stay).
pub fn undo(w: &mut [u32], u: Used, before: Before<'_>)
    requires { Lay w.old u × Above before.used u }
    ensures { Undone w.old u w.new before.entry.used (rows_of before.entry) × Stay before.entry.touched before.entry.used.vars w.old w.new }
{
    put_vars(w, u, before);
    give_back(w, u, before.used);
}

// The state is what it was: w0 are the words of then.
// Refused: counts that stay (counts_stay).
pub fn go_back(st: &mut State<'_>, before: Before<'_>)
    ghost w0: { List ℕ }
    requires { GrownFrom w0 before st.old }
    ensures { WentBack w0 before.entry st.old st.new }
{
    let before = before.since(st.touched);
    let w = &mut *st.words;
    undo(w, st.used, before);
    st.used = before.used;
}
