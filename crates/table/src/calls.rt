// How a state is changed: the few functions that write its words.

ghost use Rattle.std.specs.Prelude.{◌≡◌, List, ◌<◌, take};
ghost use Rattle.definition.specs.Types as d;
ghost use Rattle.definition.specs.Store.{sp, next_tvar, insert, with_need};
ghost use Rattle.definition.specs.Subst.{mark_one, parts};
ghost use Rattle.names.specs.Names.{mark_of, name_of};
ghost use Rattle.table.specs.Encode.{encode};
ghost use Rattle.table.specs.State.{value_of, constraint_of, Declares, Flat, FoundIn, Parts, with_cell, pushed_constraint};
ghost use Rattle.table.specs.Did.{held, Counts, Did, Took, Kept, Added, DeclaredBy};

use crate::read::ReadState;
use crate::state::{State, Stop};
use crate::{
    ARGS_AT, Applied, CONSTRAINTS_AT, Constraint, NODES_AT, STRUCTS_AT, Shape, Used, VARS_AT,
    cell_row, constraint_row, put_row, row_of, touch, tvar, wide, write_parts, write_words,
};
use names::{
    AbilityMark, AbilitySet, MAX_ARGS, MAX_CONSTRAINTS, MAX_NODES, MAX_STRUCTS, MAX_VARS, TVar,
    TypeName,
};
use refusals::Refusal;

// TVar::next: the counts are lent, and altered by the taking.
fn next_tvar(used: &mut Used) -> Result<TVar, Stop>
    ensures { Counts used.old used.new result }
{
    let n = used.vars;
    if MAX_VARS <= n {
        return Err(Stop::Refused(Refusal::Full));
    }
    used.vars = n + 1;
    Ok(tvar(n))
}

impl State<'_> {
    // sp of a type without arguments: a new node, if there is room for it.
    pub fn push_node(&mut self, loc: u32, shape: Shape) -> Result<u32, Stop>
        requires { Flat self.old.used.nodes shape }
        ensures { Did self.old self.new result (λ s. sp s loc (value_of shape)) }
    {
        let n = self.used.nodes;
        if MAX_NODES <= n {
            return Err(Stop::Refused(Refusal::Full));
        }
        let row = row_of(loc, shape);
        put_row(self.words, NODES_AT, n, row);
        self.used.nodes = n + 1;
        Ok(n)
    }

    // sp of a named type: a new node and places for its n arguments, if there is room for both. Eight parts and their count, no slice: each caller
    // would cut one at the call, and show that it fits.
    pub fn push_apply(
        &mut self,
        loc: u32,
        k: AbilityMark,
        name: TypeName,
        parts: [u32; 8],
        n: u32,
    ) -> Result<u32, Stop>
        requires { Parts self.old.used.nodes parts n }
        ensures { Did self.old self.new result (λ s. sp s loc (d.Apply (mark_of k) (name_of name) (take n parts))) }
    {
        let t = self.used.nodes;
        let first = self.used.args;
        if MAX_NODES <= t || MAX_ARGS - first < n {
            return Err(Stop::Refused(Refusal::Full));
        }
        let a = Applied {
            k,
            n: name,
            first,
            many: n,
        };
        let row = row_of(loc, Shape::Apply(a));
        let w = &mut *self.words;
        write_parts(w, ARGS_AT + wide(first), parts, n);
        put_row(w, NODES_AT, t, row);
        self.used.nodes = t + 1;
        self.used.args = first + n;
        Ok(t)
    }

    // A fresh variable. Its row is zero already.
    pub fn take_var(&mut self) -> Result<TVar, Stop>
        ensures { Took self.old self.new result (λ s. next_tvar s) }
    {
        next_tvar(&mut self.used)
    }

    // Variable v has this binding, this mark and this need, and is noted.
    // Refused (must-fail/): one that is not noted (binding_not_noted).
    fn put_cell(&mut self, v: TVar, b: Option<u32>, m: Option<u32>, need: u32)
        requires { FoundIn self.old.used.nodes b }
        ensures { Kept self.old self.new (with_cell v.0 b m need) }
    {
        let i = u32::from(v);
        if i < self.used.vars {
            let row = cell_row(b, m, need);
            put_row(self.words, VARS_AT, i, row);
            self.touched = touch(self.touched, self.saved, i);
        }
    }

    // Subst::insert: binds v to node t. Its mark and need stay.
    // Refused (must-fail/): a need that a binding loses (need_lost_when_bound).
    pub fn bind_var(&mut self, v: TVar, t: u32)
        requires { t < self.old.used.nodes }
        ensures { Kept self.old self.new (λ s. insert s v.0 t) }
    {
        let m = self.num_loc_at(v);
        let need = self.need_at(v);
        self.put_cell(v, Some(t), m, need);
    }

    // num_vars.entry(v).or_insert(loc)
    pub fn mark_one(&mut self, v: TVar, loc: u32)
        ensures { Kept self.old self.new (λ s. mark_one s v.0 loc) }
    {
        let b = self.bound_at(v);
        let m = self.num_loc_at(v);
        let need = self.need_at(v);
        self.put_cell(v, b, Some(m.unwrap_or(loc)), need);
    }

    // The need of v's mark.
    pub fn set_need(&mut self, v: TVar, need: u32)
        ensures { Kept self.old self.new (λ s. with_need s v.0 need) }
    {
        let b = self.bound_at(v);
        let m = self.num_loc_at(v);
        self.put_cell(v, b, m, need);
    }

    // context.constraints.push
    pub fn push_constraint(&mut self, c: Constraint) -> Result<(), Stop>
        ensures { Added self.old self.new result (pushed_constraint (constraint_of c)) }
    {
        let n = self.used.constraints;
        if MAX_CONSTRAINTS <= n {
            return Err(Stop::Refused(Refusal::Full));
        }
        let row = constraint_row(c);
        put_row(self.words, CONSTRAINTS_AT, n, row);
        self.used.constraints = n + 1;
        Ok(())
    }

    // A struct is declared: its row, without the parameter bytes, which stand beside the words.
    pub fn push_struct(&mut self, abilities: AbilitySet, params: u32) -> Result<u32, Stop>
        ensures { DeclaredBy self.old self.new result abilities.0 params }
    {
        let n = self.used.structs;
        if MAX_STRUCTS <= n {
            return Err(Stop::Refused(Refusal::Full));
        }
        put_row(self.words, STRUCTS_AT, n, [u32::from(abilities), params]);
        self.used.structs = n + 1;
        Ok(n)
    }

    // The counts are written: the words are the state's, outright.
    pub fn write_used(&mut self)
        ensures { Kept self.old self.new (λ s. s) × ((ds : List d.Struct) → Declares self.old.words.now self.old.used ds → self.new.words.now ≡ encode (held self.old ds)) }
    {
        let u = self.used;
        write_words(
            self.words,
            0,
            &[u.nodes, u.args, u.vars, u.constraints, u.structs],
        );
    }
}
