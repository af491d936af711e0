// The test for a sound state, row by row: a declaration, a node, a variable's cell, a constraint.
#![tactic(auto)]

ghost use Rattle.std.specs.Prelude.{◌≡◌, ◌+◌, ◌≤◌, ◌<◌};
ghost use Rattle.sound_fields.specs.Fields.{all_below};
ghost use Rattle.sound_rows.specs.Rows.{Sized, struct_fine, args_fine, part_fine, apply_fine, shape_fine, node_fine, binding_fine, cell_fine, constraint_fine};

use names::VECTOR;
use sound_fields::{
    fits_fine, four_zeros, mark_fine, name_fine, need_fine, numeric_fine, param_fine, ref_fine,
    var_fine,
};
use table::{
    ARGS_AT, NodeWords, Used, cell_words_at, constraint_words_at, node_words_at, struct_words_at,
};

// A lent state: its words, and how many rows of each table are in use.
#[derive(Clone, Copy)]
pub struct Lent<'a> {
    pub words: &'a [u32],
    pub used: Used,
    ghost sized: { Sized words.now used },
}

// The words are lent, and tags, kinds and flags may be any numbers: they are matched as such.
impl Lent<'_> {
    #[tactic(auto, unfolding(crate::specs::Rows::struct_fine))]
    pub fn struct_fine(&self, i: u32) -> bool
        requires { i < 256 }
        ensures { result ≡ struct_fine self.now.words.now i }
    {
        let r = struct_words_at(self.words, i);
        r.abilities <= 15 && r.params <= 8
    }

    // ---- nodes

    // How many arguments the name has.
    #[tactic(auto, unfolding(crate::specs::Rows::args_fine))]
    fn args_fine(&self, n: NodeWords) -> u32
        requires { n.b < 256 }
        ensures { result ≡ args_fine self.now.words.now n.tag n.b }
    {
        match n.tag {
            3 => u32::from(n.b == VECTOR),
            4 => n.b,
            _ => struct_words_at(self.words, n.b).params,
        }
    }

    fn parts_fine(&self, t: u32, c: usize, d: usize) -> bool
        requires { c + d ≤ 4096 }
        ensures { result ≡ all_below d (part_fine self.now.words.now t c) }
    {
        let first = ARGS_AT + c;
        self.words[first..first + d].iter().all(|part| *part < t)
    }

    #[tactic(auto, using(sound_fields::proofs::Below::name_small), unfolding(crate::specs::Rows::apply_fine))]
    fn apply_fine(&self, t: u32, n: NodeWords) -> bool
        ensures { result ≡ apply_fine self.now.words.now self.now.used t n.tag n.a n.b n.c n.d }
    {
        let c = n.c as usize;
        let d = n.d as usize;
        mark_fine(n)
            && name_fine(self.used, n)
            && fits_fine(n)
            && n.d == self.args_fine(n)
            && c + d <= self.used.args as usize
            && self.parts_fine(t, c, d)
    }

    #[tactic(auto, unfolding(crate::specs::Rows::shape_fine))]
    fn shape_fine(&self, t: u32, n: NodeWords) -> bool
        ensures { result ≡ shape_fine self.now.words.now self.now.used t n.tag n.a n.b n.c n.d }
    {
        match n.tag {
            0 | 7 | 8 => four_zeros(n),
            1 => ref_fine(t, n),
            2 => param_fine(n),
            3..=5 => self.apply_fine(t, n),
            6 => var_fine(self.used, n),
            _ => false,
        }
    }

    #[tactic(auto, unfolding(crate::specs::Rows::node_fine))]
    pub fn node_fine(&self, t: u32) -> bool
        requires { t < 2048 }
        ensures { result ≡ node_fine self.now.words.now self.now.used t }
    {
        self.shape_fine(t, node_words_at(self.words, t))
    }

    // ---- variables

    #[tactic(auto, unfolding(crate::specs::Rows::binding_fine))]
    fn binding_fine(&self, is: u32, x: u32) -> bool
        ensures { result ≡ binding_fine self.now.words.now self.now.used is x }
    {
        match is {
            0 => x == 0,
            1 => x < self.used.nodes && node_words_at(self.words, x).tag != 7,
            _ => false,
        }
    }

    #[tactic(auto, unfolding(crate::specs::Rows::cell_fine))]
    pub fn cell_fine(&self, v: u32) -> bool
        requires { v < 1024 }
        ensures { result ≡ cell_fine self.now.words.now self.now.used v }
    {
        let c = cell_words_at(self.words, v);
        self.binding_fine(c.bound, c.binding)
            && numeric_fine(c.numeric, c.loc)
            && need_fine(c.numeric, c.need)
    }

    // ---- constraints

    #[tactic(auto, unfolding(crate::specs::Rows::constraint_fine))]
    pub fn constraint_fine(&self, i: u32) -> bool
        requires { i < 512 }
        ensures { result ≡ constraint_fine self.now.words.now self.now.used i }
    {
        let c = constraint_words_at(self.words, i);
        c.ty < self.used.nodes
            && match c.kind {
                0 => c.abilities <= 15,
                1..=5 => c.abilities == 0,
                _ => false,
            }
    }
}
