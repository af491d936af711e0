// Rows slide down in their place, each with its new numbers. A row is read before the rows below it are written over.

ghost use Rattle.std.specs.Prelude.{◌≡◌, ◌≤◌, length, true};
ghost use Rattle.table.specs.Rows.{row, read_node, read_arg, read_cell, read_constraint, node_table, arg_table, var_table, constraint_table};
ghost use Rattle.table.specs.State.{node_of, shape_of, cell, constraint_of};
ghost use Rattle.std.specs.Prelude.{get_or};
ghost use Rattle.keep.specs.Slid.{Slides, SlidDown};
ghost use Rattle.keep.specs.Numbered.{among, new_shape, new_node, new_cell, new_constraint};

use crate::numbers::{Numbers, number_of};
use names::TVar;
use snapshot::zero_rows;
use table::one_row::{
    Cell, cell_in, constraint_in, node_in, place_in, put_cell, put_constraint, put_node, put_place,
};
use table::{
    ARGS_AT, Applied, Constraint, NODE_WORDS, NODES_AT, Node, Shape, VAR_WORDS, VARS_AT, wide,
};

fn new_number(new: &Numbers, t: u32) -> u32
    ensures { result ≡ get_or new.now.nodes t 0 }
{
    u32::from(number_of(&new.nodes, t))
}

#[tactic(auto, unfolding(table::specs::Rows::places))]
fn new_shape(new: &Numbers, shape: Shape) -> Shape
    ensures { shape_of result ≡ new_shape new.now (shape_of shape) }
{
    match shape {
        Shape::Unit => Shape::Unit,
        Shape::Ref(m, t) => Shape::Ref(m, new_number(new, t)),
        Shape::Param(id, a) => Shape::Param(id, a),
        Shape::Apply(a) => Shape::Apply(Applied {
            k: a.k,
            n: a.n,
            first: u32::from(number_of(&new.places, a.first)),
            many: a.many,
        }),
        Shape::Var(v) => Shape::Var(TVar(number_of(&new.vars, u32::from(v)))),
        Shape::Anything => Shape::Anything,
        Shape::UnresolvedError => Shape::UnresolvedError,
    }
}

// Refused (must-fail/): a mark that is dropped (mark_dropped).
fn new_cell(new: &Numbers, c: Cell) -> Cell
    ensures { cell result.bound result.mark result.need ≡ new_cell new.now (cell c.bound c.mark c.need) }
{
    let bound = match c.bound {
        Some(t) => Some(new_number(new, t)),
        None => None,
    };
    Cell {
        bound,
        mark: c.mark,
        need: c.need,
    }
}

#[tactic(auto, unfolding(definition::specs::Keep::of_type))]
fn new_constraint(new: &Numbers, c: Constraint) -> Constraint
    ensures { constraint_of result ≡ new_constraint new.now (constraint_of c) }
{
    match c {
        Constraint::Ability(loc, ty, a) => Constraint::Ability(loc, new_number(new, ty), a),
        Constraint::Numeric(loc, ty) => Constraint::Numeric(loc, new_number(new, ty)),
        Constraint::Bits(loc, ty) => Constraint::Bits(loc, new_number(new, ty)),
        Constraint::Ordered(loc, ty) => Constraint::Ordered(loc, new_number(new, ty)),
        Constraint::BaseType(loc, ty) => Constraint::BaseType(loc, new_number(new, ty)),
        Constraint::SingleType(loc, ty) => Constraint::SingleType(loc, new_number(new, ty)),
    }
}

// ---- the tables; how many rows stay of the first n

pub fn slide_nodes(w: &mut [u32], n: u32, stays: &[bool], new: &Numbers) -> u32
    requires { Slides node_table w.old n × (length stays.now ≡ 2048) }
    ensures { SlidDown node_table (among stays.now) (λ t. new_node new.now (read_node (row node_table w.old t))) w.old n w.new result }
{
    let mut k: u32 = 0;
    for t in 0..n {
        if !stays[wide(t)] {
            continue;
        }
        let x = node_in(w, t);
        let shape = new_shape(new, x.shape);
        put_node(w, k, Node { loc: x.loc, shape });
        k += 1;
    }
    zero_rows::<NODE_WORDS>(w, NODES_AT, k, n);
    k
}

pub fn slide_places(w: &mut [u32], n: u32, stays: &[bool], new: &Numbers) -> u32
    requires { Slides arg_table w.old n × (length stays.now ≡ 4097) }
    ensures { SlidDown arg_table (among stays.now) (λ i. get_or new.now.nodes (read_arg (row arg_table w.old i)) 0) w.old n w.new result }
{
    let mut k: u32 = 0;
    for i in 0..n {
        if !stays[wide(i)] {
            continue;
        }
        let t = new_number(new, place_in(w, i));
        put_place(w, k, t);
        k += 1;
    }
    zero_rows::<1>(w, ARGS_AT, k, n);
    k
}

// Refused: rows past the last that stay as they were (rows_left).
pub fn slide_vars(w: &mut [u32], n: u32, stays: &[bool], new: &Numbers) -> u32
    requires { Slides var_table w.old n × (length stays.now ≡ 1024) }
    ensures { SlidDown var_table (among stays.now) (λ v. new_cell new.now (read_cell (row var_table w.old v))) w.old n w.new result }
{
    let mut k: u32 = 0;
    for v in 0..n {
        if !stays[wide(v)] {
            continue;
        }
        let c = new_cell(new, cell_in(w, v));
        put_cell(w, k, c);
        k += 1;
    }
    zero_rows::<VAR_WORDS>(w, VARS_AT, k, n);
    k
}

// All constraints stay.
pub fn renumber_constraints(w: &mut [u32], n: u32, new: &Numbers)
    requires { Slides constraint_table w.old n }
    ensures { SlidDown constraint_table (λ i. true) (λ i. new_constraint new.now (read_constraint (row constraint_table w.old i))) w.old n w.new n }
{
    for i in 0..n {
        let c = new_constraint(new, constraint_in(w, i));
        put_constraint(w, i, c);
    }
}
