// Lent states whose types have far more parts than nodes, and types of 64 and 65 parts, between which the occurs walk begins to need a table: each walk answers at once.
// Prints, for each, whether the state is sound, whether a variable occurs in its last node, how many parts were looked at for that,
// and whether that node runs into itself.
#![tactic(auto)]

ghost use Rattle.std.specs.Prelude.{◌<◌};

use names::TVar;
use std::io;
use subst::Occurs;
use table::shared::SharedState;
use table::{ARGS_AT, NODE_WORDS, NODES_AT, VAR_WORDS, VARS_AT, WORDS};

// ---- states, written word by word

fn word(w: &[u32], i: usize) -> u32 {
    w.get(i).copied().unwrap_or(0)
}

fn put(w: &mut [u32], i: usize, x: u32) {
    if let Some(word) = w.get_mut(i) {
        *word = x;
    }
}

// One more node: its tag, and what follows its location.
fn add(w: &mut [u32], tag: u32, [a, b, c, d]: [u32; 4]) -> u32 {
    let t = word(w, 0);
    let at = NODES_AT + t as usize * NODE_WORDS;
    put(w, at, tag);
    put(w, at + 2, a);
    put(w, at + 3, b);
    put(w, at + 4, c);
    put(w, at + 5, d);
    put(w, 0, t.saturating_add(1));
    t
}

fn add_unit(w: &mut [u32]) -> u32 {
    add(w, 0, [0; 4])
}

fn add_var(w: &mut [u32], v: u32) -> u32 {
    add(w, 6, [v, 0, 0, 0])
}

// A list of the first `many` of eight.
fn add_list(w: &mut [u32], parts: [u32; 8], many: u32) -> u32 {
    let first = word(w, 1);
    for i in 0..8 {
        if i < many {
            put(w, ARGS_AT + first as usize + i as usize, parts[i as usize]);
        }
    }
    put(w, 1, first.saturating_add(many));
    add(w, 4, [0, many, first, many])
}

// 200 levels: each lists the one below eight times.
fn add_ladder(w: &mut [u32], bottom: u32) {
    let mut t = bottom;
    for _ in 0..200 {
        t = add_list(w, [t; 8], 8);
    }
}

// From the ninth node on each lists the eight before it: 504 lists, and more parts than any machine counts.
fn add_dense(w: &mut [u32]) {
    let mut below = [0u32; 8];
    for i in 0..8 {
        below[i] = add_unit(w);
    }
    for k in 0..504 {
        let t = add_list(w, below, 8);
        below[k % 8] = t;
    }
}

// Variable i is bound to a list of eight of variable i + 1, 30 times. The last node is variable 0.
fn add_tower(w: &mut [u32]) {
    put(w, 2, 31);
    for i in 0..30 {
        let next = add_var(w, i + 1);
        let list = add_list(w, [next; 8], 8);
        let row = VARS_AT + i as usize * VAR_WORDS;
        put(w, row, 1);
        put(w, row + 1, list);
    }
    add_var(w, 0);
}

// What a ladder stands on.
#[derive(Clone, Copy)]
enum Bottom {
    Unit,
    Var,
    UnitAndVar,
}

fn add_bottom(w: &mut [u32], bottom: Bottom) -> u32 {
    match bottom {
        Bottom::Unit => add_unit(w),
        Bottom::Var => add_var(w, 3),
        Bottom::UnitAndVar => {
            let unit = add_unit(w);
            let var = add_var(w, 3);
            add_list(w, [unit, var, 0, 0, 0, 0, 0, 0], 2)
        }
    }
}

// Lists of lists of eight `()`, among them variable 0 or not.
#[derive(Clone, Copy)]
enum Lists {
    // eight lists, the variable at either end
    First,
    Last,
    // seven lists, 64 parts
    Seven,
    SevenLast,
    // seven lists and a part more, 65 parts
    SevenAndOne,
    SevenAndVar,
}

fn add_lists(w: &mut [u32], lists: Lists) {
    let u = add_unit(w);
    let v = add_var(w, 0);
    let l = add_list(w, [u; 8], 8);
    let first = add_list(w, [v, u, u, u, u, u, u, u], 8);
    let last = add_list(w, [u, u, u, u, u, u, u, v], 8);
    match lists {
        Lists::First => add_list(w, [first, l, l, l, l, l, l, l], 8),
        Lists::Last => add_list(w, [l, l, l, l, l, l, l, last], 8),
        Lists::Seven => add_list(w, [l; 8], 7),
        Lists::SevenLast => add_list(w, [l, l, l, l, l, l, last, 0], 7),
        Lists::SevenAndOne => add_list(w, [l, l, l, l, l, l, l, u], 8),
        Lists::SevenAndVar => add_list(w, [l, l, l, l, l, l, l, v], 8),
    };
}

#[derive(Clone, Copy)]
enum Trap {
    Ladder(Bottom),
    Dense,
    Tower,
    Lists(Lists),
}

fn build(w: &mut [u32], trap: Trap) {
    put(w, 2, 4);
    match trap {
        Trap::Ladder(bottom) => {
            let t = add_bottom(w, bottom);
            add_ladder(w, t);
        }
        Trap::Dense => add_dense(w),
        Trap::Tower => add_tower(w),
        Trap::Lists(lists) => add_lists(w, lists),
    }
}

// ---- what the walks answer

// Whether the variable occurs in a node, and whether the node runs into itself.
#[derive(Clone, Copy)]
struct Answers {
    used: Occurs,
    itself: bool,
}

// Asked many times over, so that a walk that is not quick is seen.
fn walks(st: &SharedState<'_>, v: TVar, t: u32) -> Answers
    requires { t < st.now.used.nodes }
{
    let mut last = Answers {
        used: Occurs::Clear(0),
        itself: false,
    };
    for _ in 0..10000 {
        last = Answers {
            used: subst::used_tvars(st, v, t),
            itself: ends::reaches_itself(st, t),
        };
    }
    last
}

// The walks' answers for the last node, if the state is sound and has one. They only read it: its words are shared.
fn ask(w: &[u32], v: TVar) -> Option<Answers> {
    if !sound::sound_state(w, [[0u8; 8]; 256]) {
        return None;
    }
    let u = sound::used_of(w);
    let last = u.nodes.checked_sub(1)?;
    let st = SharedState::new(w, u);
    Some(walks(&st, v, last))
}

fn print(rt: &HostRuntime, trap: Trap, v: TVar) -> io::Result<()> {
    let mut w = [0u32; WORDS];
    build(&mut w, trap);
    let Some(a) = ask(&w, v) else {
        return println!(rt; "0 - - -");
    };
    match a.used {
        Occurs::Met(n) => println!(rt; "1 1 {} {}", n, u8::from(a.itself)),
        Occurs::Clear(n) => println!(rt; "1 0 {} {}", n, u8::from(a.itself)),
    }
}

fn main(rt: HostRuntime) -> io::Result<()> {
    print(&rt, Trap::Ladder(Bottom::Unit), TVar(0))?;
    print(&rt, Trap::Ladder(Bottom::Var), TVar(3))?;
    print(&rt, Trap::Ladder(Bottom::UnitAndVar), TVar(3))?;
    print(&rt, Trap::Ladder(Bottom::UnitAndVar), TVar(2))?;
    print(&rt, Trap::Dense, TVar(0))?;
    print(&rt, Trap::Tower, TVar(0))?;
    print(&rt, Trap::Lists(Lists::First), TVar(0))?;
    print(&rt, Trap::Lists(Lists::Last), TVar(0))?;
    print(&rt, Trap::Lists(Lists::Seven), TVar(0))?;
    print(&rt, Trap::Lists(Lists::SevenLast), TVar(0))?;
    print(&rt, Trap::Lists(Lists::SevenAndOne), TVar(0))?;
    print(&rt, Trap::Lists(Lists::SevenAndVar), TVar(0))
}
