// The test for a sound state, table by table: counts, what stands past them, parameter bytes, every row.
#![tactic(auto)]

ghost use Rattle.std.specs.Prelude.{◌≡◌, ◌≤◌, length};
ghost use Rattle.sound_fields.specs.Fields.{all_below};
ghost use Rattle.sound_rows.specs.Rows.{struct_fine, node_fine, cell_fine, constraint_fine};
ghost use Rattle.sound_tables.specs.Tables.{counts_fine, zeros, tails_fine, params_at, bytes_fine, tables_fine};

use names::{MAX_ARGS, MAX_CONSTRAINTS, MAX_NODES, MAX_STRUCTS, MAX_VARS};
use sound_fields::{any_of, bytes_fine};
use sound_rows::Lent;
use table::{
    ARGS_AT, CONSTRAINT_WORDS, CONSTRAINTS_AT, NODE_WORDS, NODES_AT, STRUCT_WORDS, STRUCTS_AT,
    Used, VAR_WORDS, VARS_AT, WORDS, struct_words_at,
};

#[tactic(auto, unfolding(crate::specs::Tables::counts_fine))]
pub fn counts_fine(u: Used) -> bool
    ensures { result ≡ counts_fine u }
{
    u.nodes <= MAX_NODES
        && u.args <= MAX_ARGS
        && u.vars <= MAX_VARS
        && u.constraints <= MAX_CONSTRAINTS
        && u.structs <= MAX_STRUCTS
}

// ---- past the counts

// The words from the first to the last are zero: `|` in place of a branch for each.
fn zeros(w: &[u32], first: usize, last: usize) -> bool
    requires { (first ≤ last) × (last ≤ length w.now) }
    ensures { result ≡ zeros w.now first last }
{
    w[first..last].iter().fold(0, |any, x| any | *x) == 0
}

#[tactic(auto, unfolding(crate::specs::Tables::tails_fine))]
fn tails_fine(lent: &Lent) -> bool
    ensures { result ≡ tails_fine lent.now.words.now lent.now.used }
{
    let w = lent.words;
    let u = lent.used;
    zeros(w, NODES_AT + u.nodes as usize * NODE_WORDS, ARGS_AT)
        && zeros(w, ARGS_AT + u.args as usize, VARS_AT)
        && zeros(w, VARS_AT + u.vars as usize * VAR_WORDS, CONSTRAINTS_AT)
        && zeros(
            w,
            CONSTRAINTS_AT + u.constraints as usize * CONSTRAINT_WORDS,
            STRUCTS_AT,
        )
        && zeros(w, STRUCTS_AT + u.structs as usize * STRUCT_WORDS, WORDS)
}

// ---- parameter bytes

// How many parameters declaration i has; none past the last.
#[tactic(auto, unfolding(crate::specs::Tables::params_at))]
fn params_at(lent: &Lent, i: u32) -> u32
    ensures { result ≡ params_at lent.now.words.now lent.now.used i }
{
    if i < lent.used.structs {
        struct_words_at(lent.words, i).params
    } else {
        0
    }
}

// The bytes of the declarations.
fn given_fine(lent: &Lent, params: &[[u8; 8]; 256]) -> bool
    ensures { result ≡ all_below lent.now.used.structs (bytes_fine lent.now.words.now lent.now.used params.now) }
{
    (0..lent.used.structs).all(|i| bytes_fine(params[i as usize], params_at(lent, i)))
}

// .. and of the rows past the last declaration, which are zero.
fn params_fine(lent: &Lent, params: &[[u8; 8]; 256]) -> bool
    ensures { result ≡ all_below 256 (bytes_fine lent.now.words.now lent.now.used params.now) }
{
    let n = lent.used.structs as usize;
    given_fine(lent, params) && params[n..].iter().all(|row| any_of(*row) == 0)
}

// ---- every row

// A function for each table: `tables_fine` with the four `all`s in one conjunction was tried, and its `returns` stayed open.
fn structs_fine(lent: &Lent) -> bool
    ensures { result ≡ all_below lent.now.used.structs (struct_fine lent.now.words.now) }
{
    (0..lent.used.structs).all(|i| lent.struct_fine(i))
}

fn nodes_fine(lent: &Lent) -> bool
    ensures { result ≡ all_below lent.now.used.nodes (node_fine lent.now.words.now lent.now.used) }
{
    (0..lent.used.nodes).all(|t| lent.node_fine(t))
}

fn cells_fine(lent: &Lent) -> bool
    ensures { result ≡ all_below lent.now.used.vars (cell_fine lent.now.words.now lent.now.used) }
{
    (0..lent.used.vars).all(|v| lent.cell_fine(v))
}

fn constraints_fine(lent: &Lent) -> bool
    ensures { result ≡ all_below lent.now.used.constraints (constraint_fine lent.now.words.now lent.now.used) }
{
    (0..lent.used.constraints).all(|i| lent.constraint_fine(i))
}

// All but the counts and the chains of bindings.
#[tactic(auto, unfolding(crate::specs::Tables::tables_fine))]
pub fn tables_fine(lent: &Lent, params: &[[u8; 8]; 256]) -> bool
    ensures { result ≡ tables_fine lent.now.words.now lent.now.used params.now }
{
    tails_fine(lent)
        && structs_fine(lent)
        && params_fine(lent, params)
        && nodes_fine(lent)
        && cells_fine(lent)
        && constraints_fine(lent)
}
