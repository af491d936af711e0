// Types are read by the ends that are noted of their chains.

ghost use Rattle.std.specs.Prelude.{◌≡◌, List, ◌<◌, ◌≤◌, ⊤};
ghost use Rattle.definition.specs.Types as d;
ghost use Rattle.definition.specs.Subst.{forward_tvar, reaches_itself};
ghost use Rattle.table.specs.Did.{held};
ghost use Rattle.ends.specs.Known.{EndsKnown, EndsKnown-prop};
ghost use Rattle.ends.specs.Itself.{Goes_on, Levels, Measured, Soon};
ghost use Rattle.ends.specs.Leads.{LedTo};

use names::TVar;
use std::alloc::AllocError;
use table::Shape;
use table::read::ReadState;

// Where a type leads: to a node that is no bound variable, or to an open variable, which `_` is not. The node's number and no shape, which is copied slowly.
#[derive(Clone, Copy)]
pub enum Led {
    Node(u32),
    Open { loc: u32, end: TVar },
}

// A state, and what is noted of the ends of its chains: of a variable one more than the number of the variable at the end, or 0, which is none.
pub struct Chains<'a, S: ReadState> {
    pub st: &'a S,
    pub ends: &'a [u32],
    pub ghost known: { EndsKnown (S.state st.now) ends.now } by { EndsKnown-prop (S.state st.now) ends.now },
}

impl<S: ReadState> Copy for Chains<'_, S> {}

impl<S: ReadState> Clone for Chains<'_, S> {
    ghost is_clone = { λ x y. y ≡ x };

    ghost is_infallible = { λ _. ⊤ };

    fn clone(&self) -> Result<Self, AllocError> {
        Ok(*self)
    }
}

impl<S: ReadState> Chains<'_, S> {
    // The end of v's chain; what is noted is not looked for again.
    pub fn end(&self, v: TVar) -> TVar
        ensures { (ds : List d.Struct) → result.0 ≡ forward_tvar (held (S.state self.now.st.now) ds) v.0 }
    {
        match table::noted(self.ends, v).checked_sub(1) {
            Some(last) => table::tvar(last),
            None => subst::forward_tvar(self.st, v).tvar,
        }
    }

    // unfold_type, by the ends that are noted, and what it leaves open.
    pub fn lead(&self, t: u32) -> Led
        requires { t < (S.state self.now.st.now).used.nodes }
        ensures { LedTo (S.state self.now.st.now) t result }
    {
        let n = self.st.node_at(t);
        let Some(v) = shapes::as_var(n.shape) else {
            return Led::Node(t);
        };
        let end = self.end(v);
        match self.st.bound_at(end) {
            None => Led::Open { loc: n.loc, end },
            Some(x) => Led::Node(x),
        }
    }

    // The shape that reading node t goes on with.
    pub fn goes_on(&self, t: u32) -> Shape
        requires { t < (S.state self.now.st.now).used.nodes }
        ensures { Goes_on (S.state self.now.st.now) t result }
    {
        match self.lead(t) {
            Led::Node(x) => self.st.node_at(x).shape,
            Led::Open { .. } => Shape::Anything,
        }
    }

    // In how many levels reading node t is over; none if not in `left`. A node's answer is noted: each is read once.
    // The heights are numbers, as callers lend them, and 0 is none: Options of u16 would take twice the 4 KiB, which are zeros at first.
    pub fn levels(&self, t: u32, left: u32, heights: &mut [u16]) -> Option<u32>
        requires { (t < (S.state self.now.st.now).used.nodes) × ((left ≤ (S.state self.now.st.now).used.nodes) × Measured (S.state self.now.st.now) heights.old) }
        ensures { Levels (S.state self.now.st.now) t left result × Measured (S.state self.now.st.now) heights.new }
    {
        let below = left.checked_sub(1)?;
        let known = heights[t as usize];
        if 0 < known {
            return Some(u32::from(known));
        }
        let s = self.goes_on(t);
        let mut high: u32 = 0;
        for i in 0..shapes::part_count(s) {
            let p = shapes::part_at(self.st, s, i);
            let n = self.levels(p, below, heights)?;
            high = high.max(n);
        }
        if self.st.used().nodes <= high {
            return None;
        }
        // By `as`: there are at most 2,048 nodes, and `try_from` would need an arm for what cannot be.
        heights[t as usize] = (high + 1) as u16;
        Some(high + 1)
    }

    // How many of `budget` parts are left once reading node t is over, in at most `left` levels; none: not over so soon.
    pub(crate) fn soon_over(&self, t: u32, left: u32, budget: u32) -> Option<u32>
        requires { t < (S.state self.now.st.now).used.nodes }
        ensures { Soon (S.state self.now.st.now) t left result }
    {
        let below = left.checked_sub(1)?;
        let mut rest = budget.checked_sub(1)?;
        let shape = self.goes_on(t);
        for i in 0..shapes::part_count(shape) {
            let p = shapes::part_at(self.st, shape, i);
            rest = self.soon_over(p, below, rest)?;
        }
        Some(rest)
    }

    // The test with heights, for a type of any size.
    pub fn never_over(&self, t: u32) -> bool
        requires { t < (S.state self.now.st.now).used.nodes }
        ensures { (ds : List d.Struct) → result ≡ reaches_itself (held (S.state self.now.st.now) ds) t }
    {
        let mut heights: [u16; 2048] = [0; 2048];
        self.levels(t, self.st.used().nodes, &mut heights).is_none()
    }
}
