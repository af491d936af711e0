// A type from a record's bytes: read from left to right (5, 6, 18), and placed as nodes (7).
#![tactic(auto)]

ghost use Rattle.std.specs.Prelude.{◌≡◌, ◌≤◌, take};
ghost use Rattle.definition.specs.Trees.{read_nested};
ghost use Rattle.table.specs.Did.{tables, Did};
ghost use Rattle.cursor.specs.Words.{Within};
ghost use Rattle.heads.specs.Fields.{tree_read, many_parts, Arities};
ghost use Rattle.reader.specs.Taken.{Takes, PartsBelow, put_node};

use cursor::Reader;
use heads::{Head, read_head};
use refusals::Refusal;
use table::Shape;
use table::state::{State, Stop};

// ---- a type and its parts, read and placed

pub fn part_count(shape: Shape) -> usize
    ensures { result ≡ many_parts shape }
{
    table::wide(shapes::part_count(shape))
}

// The node of a type whose parts are placed. Beside ready's rebuild, which knows its node's parts from the state: a function under both would
// have to be told by each.
fn place_node(st: &mut State<'_>, head: Head, parts: [u32; 8]) -> Result<u32, Stop>
    requires { (many_parts head.shape ≤ 8) × PartsBelow st.old.used.nodes parts (many_parts head.shape) }
    ensures { Did st.old st.new result (put_node head.loc head.shape (take (many_parts head.shape) parts)) }
{
    let loc = head.loc;
    let shape = head.shape;
    match shape {
        Shape::Ref(m, _) => st.push_node(loc, Shape::Ref(m, parts[0])),
        Shape::Apply(a) => st.push_apply(loc, a.k, a.n, parts, a.many),
        _ => st.push_node(loc, shape),
    }
}

// A type at most `nest` deep, and its node; none if there is no space (7). Once space has ended nothing more is placed, but reading goes on: a later 5, 6
// or 18 comes before 7. `full` is a flag, since there is nothing to place beside it. State, bytes and variables known go down one by one: a struct
// of them would be lent anew at each call, and no clause would go.
#[cycle(read_parts_read_type)]
pub fn read_type(
    st: &mut State<'_>,
    r: &mut Reader,
    known: u32,
    nest: u32,
    full: bool,
) -> Result<Option<u32>, Refusal>
    requires { Arities (tables st.old).structs }
    ensures is { Takes st.old known full (λ s. read_nested nest s r.old.left.now) st.new r.new.left.now result }
    ensures within { Within r.old.left.now r.new.left.now }
{
    let head = read_head(st, r, known, nest)?;
    read_parts(st, r, known, nest - 1, full, head)
}

// Its parts, and then its node.
#[cycle(read_parts_read_type)]
fn read_parts(
    st: &mut State<'_>,
    r: &mut Reader,
    known: u32,
    nest: u32,
    full: bool,
    head: Head,
) -> Result<Option<u32>, Refusal>
    requires few_params { Arities (tables st.old).structs }
    requires few { many_parts head.shape ≤ 8 }
    ensures is { Takes st.old known full (λ s. tree_read (Ok head) r.old.left.now (read_nested nest s)) st.new r.new.left.now result }
    ensures within { Within r.old.left.now r.new.left.now }
{
    let n = part_count(head.shape);
    let mut over = full;
    // Eight, as push_apply takes them; how many there are the head says.
    let mut parts: [u32; 8] = [0; 8];
    for i in 0..n {
        let part = read_type(st, r, known, nest, over)?;
        over = part.is_none();
        parts[i] = part.unwrap_or(0);
    }
    if over {
        return Ok(None);
    }
    Ok(place_node(st, head, parts).ok())
}
