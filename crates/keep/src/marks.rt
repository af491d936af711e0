// What stays: the listed variables, the constraints' types, and whatever both reach.

ghost use Rattle.std.specs.Prelude.{◌≡◌, ◌<◌};
ghost use Rattle.definition.specs.Keep.{a_node, a_variable};
ghost use Rattle.keep.specs.Marked.{Fits, Blank, MarksAll, Pops};

use names::TVar;

#[derive(Clone, Copy)]
pub enum Thing {
    Node(u32),
    Var(TVar),
}

// What is marked stays. Of that, the first `many` of `stack` are not looked into yet: a thing is put there when it is marked, so once.
#[derive(Drop)]
pub struct Marks {
    pub nodes: [bool; 2048],
    pub vars: [bool; 1024],
    pub stack: [Thing; 3072],
    pub many: usize,
}

impl Marks {
    pub fn new() -> Marks
        ensures { Blank result }
    {
        Marks {
            nodes: [false; 2048],
            vars: [false; 1024],
            stack: [Thing::Node(0); 3072],
            many: 0,
        }
    }

    pub fn mark_node(&mut self, t: u32)
        requires { Fits self.old × (t < 2048) }
        ensures { MarksAll (λ x. x ≡ a_node t) self.old self.new }
    {
        if self.nodes[t as usize] {
            return;
        }
        self.nodes[t as usize] = true;
        self.stack[self.many] = Thing::Node(t);
        self.many += 1;
    }

    pub fn mark_var(&mut self, v: TVar)
        requires { Fits self.old × (v.0 < 1024) }
        ensures { MarksAll (λ x. x ≡ a_variable v.0) self.old self.new }
    {
        let i = usize::from(v.0);
        if self.vars[i] {
            return;
        }
        self.vars[i] = true;
        self.stack[self.many] = Thing::Var(v);
        self.many += 1;
    }

    pub fn pop(&mut self) -> Option<Thing>
        requires { Fits self.old }
        ensures { Pops self.old result self.new }
    {
        let last = self.many.checked_sub(1)?;
        self.many = last;
        Some(self.stack[last])
    }
}
