// One row by its number, read and written in words that are no state, while rows slide down.

ghost use Rattle.std.specs.Prelude.{◌≡◌, ◌<◌, length};
ghost use Rattle.table.specs.Rows.{row, read_node, read_arg, read_cell, read_constraint, node_table, arg_table, var_table, constraint_table};
ghost use Rattle.table.specs.State.{node_of, cell, constraint_of};
ghost use Rattle.table.specs.Moved.{Puts};

use crate::{
    ARGS_AT, CONSTRAINTS_AT, Constraint, NODES_AT, Node, VARS_AT, cell_row, cell_words_at,
    constraint_of, constraint_row, constraint_words_at, node_words_at, option_at, put_row, row_of,
    shape_at, wide,
};

// A variable's row: its binding, its mark, and how many bits the mark needs.
#[derive(Clone, Copy)]
pub struct Cell {
    pub bound: Option<u32>,
    pub mark: Option<u32>,
    pub need: u32,
}

pub fn node_in(w: &[u32], t: u32) -> Node
    requires { (length w.now ≡ 24069) × (t < 2048) }
    ensures { node_of result ≡ read_node (row node_table w.now t) }
{
    let r = node_words_at(w, t);
    let shape = shape_at(r);
    Node { loc: r.loc, shape }
}

pub fn put_node(w: &mut [u32], k: u32, n: Node)
    requires { (length w.old ≡ 24069) × (k < 2048) }
    ensures { Puts node_table w.old k (node_of n) w.new }
{
    let row = row_of(n.loc, n.shape);
    put_row(w, NODES_AT, k, row);
}

pub fn place_in(w: &[u32], i: u32) -> u32
    requires { (length w.now ≡ 24069) × (i < 4096) }
    ensures { result ≡ read_arg (row arg_table w.now i) }
{
    w[ARGS_AT + wide(i)]
}

pub fn put_place(w: &mut [u32], k: u32, t: u32)
    requires { (length w.old ≡ 24069) × (k < 4096) }
    ensures { Puts arg_table w.old k t w.new }
{
    put_row(w, ARGS_AT, k, [t]);
}

pub fn cell_in(w: &[u32], v: u32) -> Cell
    requires { (length w.now ≡ 24069) × (v < 1024) }
    ensures { cell result.bound result.mark result.need ≡ read_cell (row var_table w.now v) }
{
    let r = cell_words_at(w, v);
    Cell {
        bound: option_at(r.bound, r.binding),
        mark: option_at(r.numeric, r.loc),
        need: r.need,
    }
}

pub fn put_cell(w: &mut [u32], k: u32, c: Cell)
    requires { (length w.old ≡ 24069) × (k < 1024) }
    ensures { Puts var_table w.old k (cell c.bound c.mark c.need) w.new }
{
    let row = cell_row(c.bound, c.mark, c.need);
    put_row(w, VARS_AT, k, row);
}

pub fn constraint_in(w: &[u32], i: u32) -> Constraint
    requires { (length w.now ≡ 24069) × (i < 512) }
    ensures { constraint_of result ≡ read_constraint (row constraint_table w.now i) }
{
    constraint_of(constraint_words_at(w, i))
}

pub fn put_constraint(w: &mut [u32], k: u32, c: Constraint)
    requires { (length w.old ≡ 24069) × (k < 512) }
    ensures { Puts constraint_table w.old k (constraint_of c) w.new }
{
    let row = constraint_row(c);
    put_row(w, CONSTRAINTS_AT, k, row);
}
