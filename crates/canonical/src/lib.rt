// A type without its parts as bytes: as it stands (RD), or as all that agree with it are (CN), at location 0 and its variable by the number of its first appearance.
#![tactic(auto)]

ghost use Rattle.std.specs.Prelude.{◌≡◌, List, [], ℕ, ◌+◌, ◌≤◌, ◌<◌, length};
ghost use Rattle.definition.specs.Write.{head};
ghost use Rattle.definition.specs.Canonical.{number_of, meet};
ghost use Rattle.theorems.specs.ReadySpelled as s;
ghost use Rattle.theorems.specs.ReadySpelled.{head_by, met_by};
ghost use Rattle.table.specs.State.{shape_of, value_of};
ghost use Rattle.writer.specs.Bytes.{Wrote, ByteFields};
ghost use Rattle.canonical.specs.Named.{Named, Numbered};

use names::TVar;
use table::Shape;

// How a type is spelled: RD's way, or CN's.
#[derive(Clone, Copy)]
pub enum Spelling {
    Located,
    Canonical,
}

// One of the two, and what it has to remember of the types before.
pub trait Heads {
    ghost spelling: { s.Spelling };
    // these variables were met
    ghost met: { Self → List ℕ → Type 0 };

    // The type's bytes from place `at` on; the place after them.
    fn write_head(&mut self, loc: u32, shape: Shape, buf: &mut [u8], at: usize) -> usize
        requires known { (ms : List ℕ) × met self.old ms }
        requires fits { (ByteFields (shape_of shape) × Numbered (shape_of shape)) × (at + length (head loc (value_of shape)) ≤ length buf.old) }
        ensures { (ms : List ℕ) → met self.old ms → Wrote buf.old at (head_by spelling ms loc (value_of shape)) buf.new result × met self.new (met_by spelling ms (value_of shape)) };
}

// ---- RD

#[derive(Drop)]
pub struct AsItStands;

impl Heads for AsItStands {
    ghost spelling = { s.Located };

    ghost met = { λ a ms. Unit {0} };

    fn write_head(&mut self, loc: u32, shape: Shape, buf: &mut [u8], at: usize) -> usize {
        writer::write_head(loc, shape, buf, at)
    }
}

// ---- CN

// Of each variable one more than its number, or 0 where it was not met; and how many were met.
#[derive(Drop)]
pub struct Names {
    pub numbers: [u16; 1024],
    pub many: u16,
}

impl Names {
    pub fn new() -> Names
        ensures { Named result [] }
    {
        Names {
            numbers: [0; 1024],
            many: 0,
        }
    }

    // v's number: the next one if it is new.
    fn number(&mut self, v: TVar) -> TVar
        requires { ((ms : List ℕ) × Named self.old ms) × (v.0 < 1024) }
        ensures { (ms : List ℕ) → Named self.old ms → (result.0 ≡ number_of ms v.0) × Named self.new (meet ms v.0) }
    {
        let i = usize::from(v.0);
        if let Some(known) = self.numbers[i].checked_sub(1) {
            return TVar(known);
        }
        let next = self.many;
        self.many = next + 1;
        self.numbers[i] = next + 1;
        TVar(next)
    }
}

impl Heads for Names {
    ghost spelling = { s.Canonical };

    ghost met = { Named };

    fn write_head(&mut self, _loc: u32, shape: Shape, buf: &mut [u8], at: usize) -> usize {
        match shapes::as_var(shape) {
            None => writer::write_head(0, shape, buf, at),
            Some(v) => writer::write_head(0, Shape::Var(self.number(v)), buf, at),
        }
    }
}
