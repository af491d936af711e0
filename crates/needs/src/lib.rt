// R-3: what IN of a type takes of each table, counted from the type's bytes by the reader's own heads. Nothing is placed.
#![tactic(auto)]

ghost use Rattle.std.specs.Prelude.{◌≡◌, ◌≤◌, length};
ghost use Rattle.definition.specs.Trees.{read_nested};
ghost use Rattle.table.specs.Did.{tables};
ghost use Rattle.cursor.specs.Words.{Within};
ghost use Rattle.heads.specs.Fields.{many_parts, tree_read, Arities};
ghost use Rattle.needs.specs.Counted.{Counts, Most, beside, both, is_apply, own, sums};

use cursor::Reader;
use heads::{Head, read_head};
use reader::part_count;
use refusals::Refusal;
use table::Shape;
use table::read::ReadState;

// Nodes, argument places, variables and constraints.
#[derive(Clone, Copy)]
pub struct Sums {
    pub nodes: u32,
    pub places: u32,
    pub variables: u32,
    pub constraints: u32,
}

// ---- sums; none once a variable was met

fn takes(nodes: u32, places: u32, variables: u32, constraints: u32) -> Sums
    ensures { result ≡ sums nodes places variables constraints }
{
    Sums {
        nodes,
        places,
        variables,
        constraints,
    }
}

fn both(a: Option<Sums>, b: Option<Sums>) -> Option<Sums>
    requires { Most 65536 a × Most 65536 b }
    ensures { result ≡ both a b }
{
    let a = a?;
    let b = b?;
    Some(takes(
        a.nodes + b.nodes,
        a.places + b.places,
        a.variables + b.variables,
        a.constraints + b.constraints,
    ))
}

// ---- a type without its parts

fn own(shape: Shape) -> Option<Sums>
    ensures { result ≡ own shape }
{
    match shape {
        Shape::Ref(_, _) => Some(takes(2, 0, 0, 1)),
        Shape::Apply(_) => Some(takes(2, 0, 0, 0)),
        Shape::Var(_) => None,
        Shape::Anything => Some(takes(2, 0, 1, 0)),
        _ => Some(takes(1, 0, 0, 0)),
    }
}

// What an argument takes beside its type: a variable with its node, two constraints and two places; for `_` the merge of two open variables too.
fn beside(arg: bool, shape: Shape) -> Sums
    ensures { result ≡ beside arg shape }
{
    if arg {
        match shape {
            Shape::Anything => takes(5, 2, 2, 2),
            _ => takes(1, 2, 1, 2),
        }
    } else {
        takes(0, 0, 0, 0)
    }
}

// Whether the parts are arguments: those of a name are, what a reference refers to is not.
fn is_apply(shape: Shape) -> bool
    ensures { result ≡ is_apply shape }
{
    matches!(shape, Shape::Apply(_))
}

// ---- a type and its parts

// A type at most `nest` deep; arg: it is an argument of a name, a flag, as nothing comes with it. Of at most 4,096 bytes, whose sums fit. A walk
// beside reader's: one over both would have to say what placing and counting have in common, which is the reading alone, in heads.
#[cycle(count_parts_count_type)]
pub fn count_type<S: ReadState>(
    st: &S,
    r: &mut Reader,
    known: u32,
    nest: u32,
    arg: bool,
) -> Result<Option<Sums>, Refusal>
    requires few_params { Arities (tables (S.state st.now)).structs }
    requires short { length r.old.left.now ≤ 4096 }
    ensures is { Counts (S.state st.now) known arg (λ s. read_nested nest s r.old.left.now) r.new.left.now result }
    ensures within { Within r.old.left.now r.new.left.now }
{
    let head = read_head(st, r, known, nest)?;
    count_parts(st, r, known, nest - 1, arg, head)
}

// Its parts, beside itself.
#[cycle(count_parts_count_type)]
fn count_parts<S: ReadState>(
    st: &S,
    r: &mut Reader,
    known: u32,
    nest: u32,
    arg: bool,
    head: Head,
) -> Result<Option<Sums>, Refusal>
    requires few_params { Arities (tables (S.state st.now)).structs }
    requires few { many_parts head.shape ≤ 8 }
    requires short { length r.old.left.now ≤ 4096 }
    ensures is { Counts (S.state st.now) known arg (λ s. tree_read (Ok head) r.old.left.now (read_nested nest s)) r.new.left.now result }
    ensures within { Within r.old.left.now r.new.left.now }
{
    let n = part_count(head.shape);
    let args = is_apply(head.shape);
    let mut all = both(own(head.shape), Some(beside(arg, head.shape)));
    for _i in 0..n {
        let part = count_type(st, r, known, nest, args)?;
        all = both(all, part);
    }
    Ok(all)
}
