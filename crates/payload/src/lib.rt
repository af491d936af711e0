// What an answer is: its number, its payload in bytes, the rows in use, and whether the state is the one that the run left.
#![tactic(auto)]

ghost use Rattle.std.specs.Prelude.{◌≡◌, true, false, List, ◌++◌, ◌+◌, ◌≤◌, ◌<◌, length};
ghost use Rattle.definition.specs.Types as d;
ghost use Rattle.definition.specs.Write.{u32 as bytes-u32, write};
ghost use Rattle.definition.specs.Step.{behind};
ghost use Rattle.table.specs.Did.{held, tables};
ghost use Rattle.writer.specs.Bytes.{Wrote, Capped, AllBytes};
ghost use Rattle.payload.specs.Payload.{reply, shown, tail_bytes, Shows, Paid};

use table::state::State;
use table::{Shape, Used, tvar};
use writer::{put_u16, put_u32, size_type, write_head, write_type};

// What a payload shows: nothing, the number of a success, the variable of that number at a location, the type of the
// node of that number, `_` at a location, a location, two types, or four other numbers.
#[derive(Clone, Copy)]
pub enum Show {
    Nothing,
    Number,
    Variable(u32),
    Node,
    Anything(u32),
    Location(u32),
    Two(u32, u32),
    Four(u32, u32, u32, u32),
}

// The number, how many bytes the payload has, and the rows in use; whether the state is the one that the run left, so that a
// new struct's parameter bytes are put beside it: a flag, since the others are said either way.
#[derive(Clone, Copy)]
pub struct Answer {
    pub number: u32,
    pub len: usize,
    pub used: Used,
    pub kept: bool,
}

pub const MAX_PAYLOAD: u32 = 4096;

// ---- the payload

pub fn two_size(st: &State<'_>, a: u32, b: u32, most: u32) -> Option<u32>
    requires { ((a < st.now.used.nodes) × (b < st.now.used.nodes)) × (most ≤ 4096) }
    ensures { (ds : List d.Struct) → Capped most (length (write (held st.now ds) a ++ write (held st.now ds) b)) result }
{
    let n = size_type(st, a, most)?;
    let m = size_type(st, b, most - n)?;
    Some(n + m)
}

// How many bytes, if no more than `most`.
#[tactic(auto, unfolding(crate::specs::Payload::shown, definition::specs::Write::u16, definition::specs::Write::u32, definition::specs::Write::head))]
pub fn shown_size(st: &State<'_>, show: Show, t: u32, most: u32) -> Option<u32>
    requires { Shows st.now.used show t × ((16 ≤ most) × (most ≤ 4096)) }
    ensures { (ds : List d.Struct) → Capped most (length (shown show t (held st.now ds))) result }
{
    match show {
        Show::Nothing => Some(0),
        Show::Number => Some(2),
        Show::Variable(_) => Some(7),
        Show::Node => size_type(st, t, most),
        Show::Anything(_) => Some(5),
        Show::Location(_) => Some(4),
        Show::Two(a, b) => two_size(st, a, b, most),
        Show::Four(_, _, _, _) => Some(16),
    }
}

pub fn write_two(st: &State<'_>, a: u32, b: u32, buf: &mut [u8]) -> usize
    requires in_use { (a < st.now.used.nodes) × ((b < st.now.used.nodes) × (AllBytes (tables st.now) × (4096 ≤ length buf.old))) }
    requires fits { (ds : List d.Struct) → length (write (held st.now ds) a ++ write (held st.now ds) b) ≤ 4096 }
    ensures { (ds : List d.Struct) → Wrote buf.old 0 (write (held st.now ds) a ++ write (held st.now ds) b) buf.new result }
{
    let next = write_type(st, a, buf, 0);
    write_type(st, b, buf, next)
}

#[tactic(auto, unfolding(definition::specs::Write::u32))]
pub fn write_four(a: u32, b: u32, c: u32, e: u32, buf: &mut [u8]) -> usize
    requires { 4096 ≤ length buf.old }
    ensures { Wrote buf.old 0 (bytes-u32 a ++ bytes-u32 b ++ bytes-u32 c ++ bytes-u32 e) buf.new result }
{
    let second = put_u32(buf, 0, a);
    let third = put_u32(buf, second, b);
    let fourth = put_u32(buf, third, c);
    put_u32(buf, fourth, e)
}

pub fn write_shown(st: &State<'_>, show: Show, t: u32, buf: &mut [u8]) -> usize
    requires shows { Shows st.now.used show t × (AllBytes (tables st.now) × (4096 ≤ length buf.old)) }
    requires fits { (ds : List d.Struct) → length (shown show t (held st.now ds)) ≤ 4096 }
    ensures { (ds : List d.Struct) → Wrote buf.old 0 (shown show t (held st.now ds)) buf.new result }
{
    match show {
        Show::Nothing => 0,
        Show::Number => put_u16(buf, 0, t),
        Show::Variable(loc) => write_head(loc, Shape::Var(tvar(t)), buf, 0),
        Show::Node => write_type(st, t, buf, 0),
        Show::Anything(loc) => write_head(loc, Shape::Anything, buf, 0),
        Show::Location(loc) => put_u32(buf, 0, loc),
        Show::Two(a, b) => write_two(st, a, b, buf),
        Show::Four(a, b, c, e) => write_four(a, b, c, e, buf),
    }
}

// What stands behind what is shown: nothing, or a count of four bytes.
fn tail_size(tail: Option<u32>) -> u32
    ensures { result ≡ length (tail_bytes tail) }
{
    match tail {
        None => 0,
        Some(_) => 4,
    }
}

fn put_tail(tail: Option<u32>, buf: &mut [u8], at: usize) -> usize
    requires { at + length (tail_bytes tail) ≤ length buf.old }
    ensures { Wrote buf.old at (tail_bytes tail) buf.new result }
{
    match tail {
        None => at,
        Some(count) => put_u32(buf, at, count),
    }
}

// The payload, if it has no more than 4,096 bytes with its tail, and how many. It is sized first: else the buffer stays as it was.
// Refused (must-fail/): a limit without the tail (limit_without_tail), a tail over what is shown (tail_in_front).
// The 4,096 bytes are a clause and no struct of the buffer: writer and failing ask for what they write, and would unpack it again.
// `AllBytes` is no part of State: its `new` and push_apply would ask their callers for it.
pub fn write_payload(
    st: &State<'_>,
    show: Show,
    t: u32,
    tail: Option<u32>,
    buf: &mut [u8],
) -> Option<usize>
    requires { Shows st.now.used show t × (AllBytes (tables st.now) × (4096 ≤ length buf.old)) }
    ensures { (ds : List d.Struct) → Paid (behind (tail_bytes tail) (shown show t (held st.now ds))) buf.old buf.new result }
{
    shown_size(st, show, t, MAX_PAYLOAD - tail_size(tail))?;
    let end = write_shown(st, show, t, buf);
    Some(put_tail(tail, buf, end))
}

// ---- the state

pub fn as_before(before: Used, number: u32, len: usize) -> Answer
    ensures { result ≡ reply number len before false }
{
    Answer {
        number,
        len,
        used: before,
        kept: false,
    }
}

// The state is the one that the run left.
// Refused (must-fail/): a state that is not kept (state_not_kept), no payload (no_payload).
pub fn as_left(used: Used, number: u32, written: usize) -> Answer
    ensures { result ≡ reply number written used true }
{
    Answer {
        number,
        len: written,
        used,
        kept: true,
    }
}
