// typing/core.rs, slowly: bindings and numeric marks as two histories, newest last, searched from the newest. No table by variable.
// Changed from the source that NOTICE names: ported to Rattle.
#![tactic(auto)]

ghost use Rattle.std.specs.Prelude.{◌≡◌, List, ℕ, ◌<◌, get_or, take};
ghost use Rattle.definition.specs.Types as d;
ghost use Rattle.definition.specs.Store.{node, args_at, with_args, get, num_loc, need_of, insert, sp, next_tvar, with_need};
ghost use Rattle.definition.specs.Subst.{mark_one, parts};
ghost use Rattle.names.specs.Names.{mark_of, name_of};
ghost use Rattle.table.specs.Rows.{places};
ghost use Rattle.shapes.specs.Parts.{part_count};
ghost use Rattle.table.specs.State.{node_of, shape_of, value_of, Flat, Parts};
ghost use Rattle.table.specs.Did.{held, Did, Took, Kept};
ghost use Rattle.history.specs.History.{find_binding, find_mark, Holds};
ghost use Rattle.history.specs.Holding.{Holds-prop};

pub mod rows;

use names::{AbilityMark, TVar, TypeName};
use table::read::ReadState;
use table::state::{State, Stop};
use table::{Node, Shape};

// From this entry on, variable `tvar` is bound to `node`.
#[derive(Clone, Copy)]
pub struct Binding {
    pub tvar: u32,
    pub node: u32,
}

// From this entry on, variable `tvar` has this numeric mark, if any, and needs so many bits.
#[derive(Clone, Copy)]
pub struct Mark {
    pub tvar: u32,
    pub numeric: Option<u32>,
    pub need: u32,
}

// A state whose bindings and marks are histories. While it stands, no variable's row of the words is read or written.
// Refused (must-fail/): a place less for bindings (one_place_less), for marks (one_mark_less).
#[derive(Drop)]
pub struct Past<'a> {
    pub st: State<'a>,
    pub bindings: [Binding; 5120],
    pub bound: usize,
    pub marks: [Mark; 2048],
    pub marked: usize,
    pub ghost holds: { Holds st.words.now st.used bindings bound marks marked } by { Holds-prop st.words.now st.used bindings bound marks marked },
}

impl Past<'_> {
    ghost use Rattle.history.specs.Past.{as_rows, marks_reach, with_mark, Spare, Within, Spends, Marks, Frees};

    // The node that variable v is bound to.
    // Refused (must-fail/): the oldest entry in place of the newest (oldest_binding_found).
    fn find(&self, v: u32) -> Option<u32>
        ensures { result ≡ find_binding self.now.bindings self.now.bound v }
    {
        for newer in 0..self.bound {
            let b = self.bindings[self.bound - 1 - newer];
            if b.tvar == v {
                return Some(b.node);
            }
        }
        None
    }

    // The mark of variable v.
    fn find_mark(&self, v: u32) -> Mark
        ensures { result ≡ find_mark self.now.marks self.now.marked v }
    {
        for newer in 0..self.marked {
            let m = self.marks[self.marked - 1 - newer];
            if m.tvar == v {
                return m;
            }
        }
        Mark {
            tvar: 0,
            numeric: None,
            need: 0,
        }
    }

    // ---- what a state is asked

    pub fn node_at(&self, t: u32) -> Node
        ensures { (ds : List d.Struct) → node_of result ≡ node (held (as_rows self.now) ds) t }
    {
        self.st.node_at(t)
    }

    pub fn arg_at(&self, first: u32, i: u32) -> u32
        ensures { (ds : List d.Struct) (many : ℕ) → i < many → result ≡ get_or (args_at (held (as_rows self.now) ds) (places first many)) i 0 }
    {
        self.st.arg_at(first, i)
    }

    // Part i of a type.
    pub fn part_at(&self, s: Shape, i: u32) -> u32
        ensures { (ds : List d.Struct) → i < part_count (shape_of s) → result ≡ get_or (parts (with_args (held (as_rows self.now) ds) (shape_of s))) i 0 }
    {
        shapes::part_at(&self.st, s, i)
    }

    // Subst::get
    pub fn bound_at(&self, v: TVar) -> Option<u32>
        ensures { (ds : List d.Struct) → result ≡ get (held (as_rows self.now) ds) v.0 }
    {
        self.find(u32::from(v))
    }

    // num_vars.get
    pub fn num_loc_at(&self, v: TVar) -> Option<u32>
        ensures { (ds : List d.Struct) → result ≡ num_loc (held (as_rows self.now) ds) v.0 }
    {
        self.find_mark(u32::from(v)).numeric
    }

    // How many bits v's mark needs.
    pub fn need_at(&self, v: TVar) -> u32
        ensures { (ds : List d.Struct) → result ≡ need_of (held (as_rows self.now) ds) v.0 }
    {
        self.find_mark(u32::from(v)).need
    }

    // ---- how it is changed

    // Subst::insert: a newer entry.
    // Refused (must-fail/): one that is not counted (binding_not_counted).
    pub fn bind_var(&mut self, v: TVar, t: u32)
        requires { (t < self.old.st.used.nodes) × Spare self.old v.0 }
        ensures { Kept (as_rows self.old) (as_rows self.new) (λ s. insert s v.0 t) × Spends self.old self.new v.0 }
    {
        let i = u32::from(v);
        if i < self.st.used.vars {
            self.bindings[self.bound] = Binding { tvar: i, node: t };
            self.bound += 1;
        }
    }

    // Variable v has this mark and this need: a newer entry.
    pub fn put_mark(&mut self, v: TVar, numeric: Option<u32>, need: u32)
        requires { marks_reach self.old < 2048 }
        ensures { Kept (as_rows self.old) (as_rows self.new) (with_mark v.0 numeric need) × Marks self.old self.new }
    {
        let i = u32::from(v);
        if i < self.st.used.vars {
            self.marks[self.marked] = Mark {
                tvar: i,
                numeric,
                need,
            };
            self.marked += 1;
        }
    }

    // num_vars.entry(v).or_insert(loc), and how many bits v needs. Where v is bound to no variable, this is set_num_var.
    pub fn mark_var(&mut self, v: TVar, loc: u32, need: u32)
        requires { marks_reach self.old < 2048 }
        ensures { Kept (as_rows self.old) (as_rows self.new) (λ s. with_need (mark_one s v.0 loc) v.0 need) × Marks self.old self.new }
    {
        let known = self.num_loc_at(v);
        self.put_mark(v, Some(known.unwrap_or(loc)), need);
    }

    // A fresh variable: no entry has it.
    pub fn take_var(&mut self) -> Result<TVar, Stop>
        ensures { Took (as_rows self.old) (as_rows self.new) result (λ s. next_tvar s) × Frees self.old self.new result }
    {
        self.st.take_var()
    }

    pub fn push_node(&mut self, loc: u32, shape: Shape) -> Result<u32, Stop>
        requires { Flat self.old.st.used.nodes shape }
        ensures { Did (as_rows self.old) (as_rows self.new) result (λ s. sp s loc (value_of shape)) × Within self.old self.new }
    {
        self.st.push_node(loc, shape)
    }

    pub fn push_apply(
        &mut self,
        loc: u32,
        k: AbilityMark,
        name: TypeName,
        parts: [u32; 8],
        n: u32,
    ) -> Result<u32, Stop>
        requires { Parts self.old.st.used.nodes parts n }
        ensures { Did (as_rows self.old) (as_rows self.new) result (λ s. sp s loc (d.Apply (mark_of k) (name_of name) (take n parts))) × Within self.old self.new }
    {
        self.st.push_apply(loc, k, name, parts, n)
    }
}
