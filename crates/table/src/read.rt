// What a state is asked: one whose words are lent to be changed (State), or one whose words are shared (SharedState), by what only reads it.
// The contracts speak of a State in both cases.

ghost use Rattle.std.specs.Prelude.{◌≡◌, List, ℕ, ◌<◌, ◌≤◌, length, get_or};
ghost use Rattle.definition.specs.Types as d;
ghost use Rattle.definition.specs.Store.{node, type_at, get, num_loc, need_of, args_at};
ghost use Rattle.definition.specs.Subst.{parts};
ghost use Rattle.table.specs.Rows.{constraint_table, struct_table, places};
ghost use Rattle.table.specs.State.{CellAt, node_of, constraint_of, Declares};
ghost use Rattle.table.specs.Did.{held};
ghost use Rattle.table.specs.declared.state.State.{State};

use crate::state::State;
use crate::{
    ARGS_AT, CellWords, Constraint, NODE_WORDS, NODES_AT, Node, Shape, StructRow, Used,
    cell_words_at, constraint_of, constraint_words_at, node_words_at, option_at, set_at, shape_at,
    struct_words_at, wide,
};
use names::{AbilitySet, TVar};

// The words of v's row, if v is in use.
fn cell_at(w: &[u32], vars: u32, v: TVar) -> Option<CellWords>
    requires { (length w.now ≡ 24069) × (vars ≤ 1024) }
    ensures { CellAt w.now vars v.0 result }
{
    let i = u32::from(v);
    if i < vars {
        Some(cell_words_at(w, i))
    } else {
        None
    }
}

pub trait ReadState {
    // The State that it stands for.
    ghost state: { Self → State };

    fn words(&self) -> &[u32]
        ensures { result.now ≡ (state self.now).words.now };

    fn used(&self) -> Used
        ensures { result ≡ (state self.now).used };

    // The node with number t; past the nodes in use, `!` without a location.
    fn node_at(&self, t: u32) -> Node
        ensures { (ds : List d.Struct) → node_of result ≡ node (held (state self.now) ds) t }
    {
        if t < self.used().nodes {
            let r = node_words_at(self.words(), t);
            let shape = shape_at(r);
            Node { loc: r.loc, shape }
        } else {
            Node {
                loc: 0,
                shape: Shape::UnresolvedError,
            }
        }
    }

    // Argument i of a node whose first place is `first`.
    fn arg_at(&self, first: u32, i: u32) -> u32
        ensures { (ds : List d.Struct) (many : ℕ) → i < many → result ≡ get_or (args_at (held (state self.now) ds) (places first many)) i 0 }
    {
        let k = wide(first) + wide(i);
        if k < wide(self.used().args) {
            self.words()[ARGS_AT + k]
        } else {
            0
        }
    }

    // The parts of n, which is node t; a reference's one stands in its row. For a walk over many: read one by one, each place would be tested anew.
    fn parts_of(&self, t: u32, n: Node) -> &[u32]
        requires { (t < (state self.now).used.nodes) × ((ds : List d.Struct) → node_of n ≡ node (held (state self.now) ds) t) }
        ensures { (ds : List d.Struct) → result.now ≡ parts (type_at (held (state self.now) ds) t) }
    {
        match n.shape {
            Shape::Ref(_, _) => {
                let at = NODES_AT + wide(t) * NODE_WORDS + 3;
                &self.words()[at..at + 1]
            }
            Shape::Apply(a) => {
                let at = ARGS_AT + wide(a.first);
                &self.words()[at..at + wide(a.many)]
            }
            _ => &[],
        }
    }

    // Subst::get: what v is bound to.
    fn bound_at(&self, v: TVar) -> Option<u32>
        ensures { (ds : List d.Struct) → result ≡ get (held (state self.now) ds) v.0 }
    {
        let r = cell_at(self.words(), self.used().vars, v)?;
        option_at(r.bound, r.binding)
    }

    // num_vars.get: the location of v's numeric mark.
    fn num_loc_at(&self, v: TVar) -> Option<u32>
        ensures { (ds : List d.Struct) → result ≡ num_loc (held (state self.now) ds) v.0 }
    {
        let r = cell_at(self.words(), self.used().vars, v)?;
        option_at(r.numeric, r.loc)
    }

    // How many bits v's numeric mark needs.
    fn need_at(&self, v: TVar) -> u32
        ensures { (ds : List d.Struct) → result ≡ need_of (held (state self.now) ds) v.0 }
    {
        match cell_at(self.words(), self.used().vars, v) {
            Some(r) => r.need,
            None => 0,
        }
    }

    // Constraint i, in the order of the list.
    fn constraint_at(&self, i: u32) -> Constraint
        requires { i < (state self.now).used.constraints }
        ensures { (ds : List d.Struct) → constraint_of result ≡ get_or (held (state self.now) ds).constraints i constraint_table.blank }
    {
        let r = constraint_words_at(self.words(), i);
        constraint_of(r)
    }

    // The row of struct n; past the structs in use, no abilities and no parameters.
    fn struct_at(&self, n: u32) -> StructRow
        ensures { (ds : List d.Struct) → Declares (state self.now).words.now (state self.now).used ds → (result.abilities.0 ≡ (get_or ds n struct_table.blank).abilities) × (result.params ≡ length (get_or ds n struct_table.blank).params) }
    {
        if n < self.used().structs {
            let r = struct_words_at(self.words(), n);
            StructRow {
                abilities: set_at(r.abilities),
                params: r.params,
            }
        } else {
            StructRow {
                abilities: AbilitySet(0),
                params: 0,
            }
        }
    }
}

impl ReadState for State<'_> {
    ghost state = { λ s. s };

    fn words(&self) -> &[u32] {
        self.words
    }

    fn used(&self) -> Used {
        self.used
    }
}
