// Types and numbers as bytes, in the form in which a record has them. A payload is sized before it is written: on 14 the answer buffer stays as it was.
#![tactic(auto)]

ghost use Rattle.std.specs.Prelude.{◌≡◌, List, [], ◌∷◌, ◌++◌, ℕ, ◌+◌, ◌≤◌, ◌<◌, length};
ghost use Rattle.definition.specs.Types as d;
ghost use Rattle.definition.specs.Write.{mark, u16, u32 as bytes-u32, apply_head, head, write};
ghost use Rattle.names.specs.Names.{mark_of, name_of};
ghost use Rattle.table.specs.State.{shape_of, value_of};
ghost use Rattle.table.specs.Did.{held, tables};
ghost use Rattle.writer.specs.Bytes.{Wrote, Capped, NameByte, ByteFields, AllBytes};

use names::{AbilityMark, TypeName};
use table::Shape;
use table::read::ReadState;
use table::state::State;

// ---- into a buffer: a buffer and a place, no writer over what is left, since the place at the end is the length that is asked for

// These bytes from place `at` on; the place after them.
pub fn put_bytes(buf: &mut [u8], at: usize, bytes: &[u8]) -> usize
    requires { at + length bytes.now ≤ length buf.old }
    ensures { Wrote buf.old at bytes.now buf.new result }
{
    buf[at..at + bytes.len()].copy_from_slice(bytes);
    at + bytes.len()
}

// The two low bytes.
pub fn put_u16(buf: &mut [u8], at: usize, x: u32) -> usize
    requires { at + 2 ≤ length buf.old }
    ensures { Wrote buf.old at (u16 x) buf.new result }
{
    put_bytes(buf, at, &x.to_le_bytes()[..2])
}

pub fn put_u32(buf: &mut [u8], at: usize, x: u32) -> usize
    requires { at + 4 ≤ length buf.old }
    ensures { Wrote buf.old at (bytes-u32 x) buf.new result }
{
    put_bytes(buf, at, &x.to_le_bytes())
}

// What begins with a byte and a location: a type, a failure.
pub fn put_tag(buf: &mut [u8], at: usize, tag: u8, loc: u32) -> usize
    requires { at + 5 ≤ length buf.old }
    ensures { Wrote buf.old at (tag ∷ bytes-u32 loc) buf.new result }
{
    let next = put_bytes(buf, at, &[tag]);
    put_u32(buf, next, loc)
}

// ---- a type's tag, location and fields, without its parts

// An ability mark: 0, or 16 plus the set.
#[tactic(auto, unfolding(definition::specs::Write::mark))]
fn mark_byte(k: AbilityMark) -> u8
    requires { mark (mark_of k) < 256 }
    ensures { result ≡ mark (mark_of k) }
{
    match k {
        None => 0,
        Some(a) => {
            let x = a.0;
            16 + x
        }
    }
}

// A named type's: its name has a tag of its own, and one byte or two.
fn write_apply(buf: &mut [u8], at: usize, loc: u32, k: AbilityMark, n: TypeName) -> usize
    requires { (mark (mark_of k) < 256) × (NameByte (name_of n) × (at + length (apply_head loc (mark_of k) (name_of n)) ≤ length buf.old)) }
    ensures { Wrote buf.old at (apply_head loc (mark_of k) (name_of n)) buf.new result }
{
    let m = mark_byte(k);
    match n {
        TypeName::Builtin(b) => {
            let next = put_tag(buf, at, 3, loc);
            put_bytes(buf, next, &[m, b as u8])
        }
        TypeName::Multiple(count) => {
            let next = put_tag(buf, at, 4, loc);
            put_bytes(buf, next, &[m, count as u8])
        }
        TypeName::ModuleType(s) => {
            let next = put_tag(buf, at, 5, loc);
            let last = put_bytes(buf, next, &[m]);
            put_u16(buf, last, s)
        }
    }
}

// A type's tag, location and fields: a variable or `_` that stands in no table. Each tag is written in one place, so none has a name. Inlined, for speed:
// a shape that is handed to a call goes through memory.
#[inline(always)]
pub fn write_head(loc: u32, shape: Shape, buf: &mut [u8], at: usize) -> usize
    requires { ByteFields (shape_of shape) × (at + length (head loc (value_of shape)) ≤ length buf.old) }
    ensures { Wrote buf.old at (head loc (value_of shape)) buf.new result }
{
    match shape {
        Shape::Unit => put_tag(buf, at, 0, loc),
        Shape::Ref(mutable, _) => {
            let next = put_tag(buf, at, 1, loc);
            put_bytes(buf, next, &[u8::from(mutable)])
        }
        Shape::Param(id, abilities) => {
            let next = put_tag(buf, at, 2, loc);
            let last = put_u32(buf, next, id.0);
            put_bytes(buf, last, &[abilities.0])
        }
        Shape::Apply(a) => write_apply(buf, at, loc, a.k, a.n),
        Shape::Var(v) => {
            let next = put_tag(buf, at, 6, loc);
            put_u16(buf, next, u32::from(v))
        }
        Shape::Anything => put_tag(buf, at, 7, loc),
        Shape::UnresolvedError => put_tag(buf, at, 8, loc),
    }
}

#[tactic(auto, unfolding(definition::specs::Write::apply_head, definition::specs::Write::u32, definition::specs::Write::u16))]
fn name_size(n: TypeName) -> u32
    ensures { ((loc : ℕ) (k : d.AbilityMark) → result ≡ length (apply_head loc k (name_of n))) × (result ≤ 10) }
{
    match n {
        TypeName::Multiple(_) => 7,
        TypeName::Builtin(_) => 7,
        TypeName::ModuleType(_) => 8,
    }
}

// How many bytes that is.
#[tactic(auto, unfolding(definition::specs::Write::head, definition::specs::Write::u32, definition::specs::Write::u16))]
pub fn head_size(shape: Shape) -> u32
    ensures { ((loc : ℕ) → result ≡ length (head loc (value_of shape))) × (result ≤ 10) }
{
    match shape {
        Shape::Unit => 5,
        Shape::Ref(_, _) => 6,
        Shape::Param(_, _) => 10,
        Shape::Apply(a) => name_size(a.n),
        Shape::Var(_) => 7,
        Shape::Anything => 5,
        Shape::UnresolvedError => 5,
    }
}

// ---- a type with its parts

// How many bytes the type t has, if no more than `room`. Types share parts, so the walk stops there.
// Not one walk with `write_type`: that one writes as it goes and has no limit, and this one ends before anything is written.
pub fn size_type(st: &State<'_>, t: u32, room: u32) -> Option<u32>
    requires { (t < st.now.used.nodes) × (room ≤ 65536) }
    ensures { (ds : List d.Struct) → Capped room (length (write (held st.now ds) t)) result }
{
    let shape = st.node_at(t).shape;
    let mut left = room.checked_sub(head_size(shape))?;
    for i in 0..shapes::part_count(shape) {
        let p = shapes::part_at(st, shape, i);
        left -= size_type(st, p, left)?;
    }
    Some(room - left)
}

// The bytes of the type t, which fit; the place after them.
pub fn write_type(st: &State<'_>, t: u32, buf: &mut [u8], at: usize) -> usize
    requires all_bytes { (t < st.now.used.nodes) × AllBytes (tables st.now) }
    requires fits { (ds : List d.Struct) → at + length (write (held st.now ds) t) ≤ length buf.old }
    ensures { (ds : List d.Struct) → Wrote buf.old at (write (held st.now ds) t) buf.new result }
{
    let node = st.node_at(t);
    let loc = node.loc;
    let shape = node.shape;
    let n = shapes::part_count(shape);
    let mut next = write_head(loc, shape, buf, at);
    for i in 0..n {
        let p = shapes::part_at(st, shape, i);
        next = write_type(st, p, buf, next);
    }
    next
}
