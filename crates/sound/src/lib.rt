// The test for a sound state, made once where a lent state enters: words and parameter bytes, whatever they hold.
// The tests of fields, rows and tables stand in `sound_fields`, `sound_rows` and `sound_tables`.
#![tactic(auto)]

ghost use Rattle.std.specs.Prelude.{◌≡◌, ◌≤◌, false, length, MatchOption};
ghost use Rattle.sound_fields.specs.Fields.{all_below};
ghost use Rattle.sound.specs.Lent.{used_of, lent_sound};
ghost use Rattle.sound.specs.Chains.{var_at, next_at, next, Links, Noted, chain_fine};

use names::TVar;
use sound_rows::Lent;
use sound_tables::{counts_fine, tables_fine};
use table::{Used, WORDS, cell_words_at, node_words_at, note, noted, tvar};

// The first five words are the counts.
#[tactic(auto, unfolding(crate::specs::Lent::used_of))]
pub fn used_of(w: &[u32]) -> Used
    requires { length w.now ≡ 24069 }
    ensures { result ≡ used_of w.now }
{
    Used {
        nodes: w[0],
        args: w[1],
        vars: w[2],
        constraints: w[3],
        structs: w[4],
    }
}

// ---- chains. `ends` walks so over a state: here words are followed of which that is not known yet, and lengths are noted, not ends.
// A walk for both would take a link's test and what is noted as closures, with the contracts of both.

// The variable that node x is, if it is one. Its word may be any number, which the definition takes modulo 65,536; `try_from` would refuse it.
#[tactic(auto, unfolding(crate::specs::Chains::var_at))]
fn var_at(lent: &Lent, x: u32) -> Option<TVar>
    ensures { next result ≡ var_at lent.now.words.now lent.now.used x }
{
    if lent.used.nodes <= x {
        return None;
    }
    let n = node_words_at(lent.words, x);
    if n.tag == 6 {
        Some(tvar(n.a % 65536))
    } else {
        None
    }
}

// The variable that v is bound to, if it is bound to one.
#[tactic(auto, unfolding(crate::specs::Chains::next_at))]
fn next_at(lent: &Lent, v: TVar) -> Option<TVar>
    ensures { next result ≡ next_at lent.now.words.now lent.now.used v.0 }
{
    let i = u32::from(v);
    if lent.used.vars <= i {
        return None;
    }
    let c = cell_words_at(lent.words, i);
    if c.bound == 1 {
        var_at(lent, c.binding)
    } else {
        None
    }
}

// How many bindings lead from v to its chain's end, if it ends in as many as there are variables.
// One more than a length is noted, and that is not counted again.
fn chain_length(lent: &Lent, v: TVar, lengths: &[u32]) -> Option<u32>
    requires { Noted lent.now.words.now lent.now.used lengths.now }
    ensures { MatchOption result (chain_fine lent.now.words.now lent.now.used v.0 ≡ false) (λ n. Links lent.now.words.now lent.now.used v.0 n) }
{
    let mut cur = v;
    for n in 0..lent.used.vars + 1 {
        let known = noted(lengths, cur);
        if 0 < known {
            return Some(n + (known - 1));
        }
        match next_at(lent, cur) {
            None => return Some(n),
            Some(x) => cur = x,
        }
    }
    None
}

// Notes the lengths of v's chain, which has n bindings, and of its links, up to one that is noted.
fn note_chain(lent: &Lent, v: TVar, n: u32, lengths: &mut [u32])
    requires { Noted lent.now.words.now lent.now.used lengths.old × ((n ≤ lent.now.used.vars) × Links lent.now.words.now lent.now.used v.0 n) }
    ensures { Noted lent.now.words.now lent.now.used lengths.new }
{
    let mut cur = v;
    for done in 0..n {
        if 0 < noted(lengths, cur) {
            return;
        }
        note(lengths, cur, n - done + 1);
        match next_at(lent, cur) {
            None => return,
            Some(x) => cur = x,
        }
    }
}

// Following bindings from v ends in as many steps as there are variables.
fn chain_fine(lent: &Lent, v: TVar, lengths: &mut [u32]) -> bool
    requires { Noted lent.now.words.now lent.now.used lengths.old }
    ensures fine { result ≡ chain_fine lent.now.words.now lent.now.used v.0 }
    ensures kept { Noted lent.now.words.now lent.now.used lengths.new }
{
    match chain_length(lent, v, lengths) {
        Some(n) if n <= lent.used.vars => {
            note_chain(lent, v, n, lengths);
            true
        }
        _ => false,
    }
}

// .. so for every variable. With the lengths noted, each binding is followed twice at most.
fn chains_fine(lent: &Lent) -> bool
    ensures { result ≡ all_below lent.now.used.vars (chain_fine lent.now.words.now lent.now.used) }
{
    // 0 where none is noted, as `table::note` has it: `Option`s would take twice the memory and a second pair of functions.
    let mut lengths = [0u32; 1024];
    // No `all`: of what its closure changes, the lengths, nothing would be known.
    for i in 0..lent.used.vars {
        if !chain_fine(lent, tvar(i), &mut lengths) {
            return false;
        }
    }
    true
}

// ---- the whole

// Every test, once; for every slice of words and every table of bytes. The first two are guards: what follows them reads a whole layout.
pub fn sound_state(w: &[u32], params: [[u8; 8]; 256]) -> bool
    ensures { result ≡ lent_sound w.now params }
{
    if w.len() != WORDS {
        return false;
    }
    let used = used_of(w);
    if !counts_fine(used) {
        return false;
    }
    let lent = Lent { words: w, used };
    tables_fine(&lent, &params) && chains_fine(&lent)
}
