// From what a run left to its answer: the payload written, and the state kept, put back or as it was at entry.
#![tactic(auto)]

ghost use Rattle.std.specs.Prelude.{◌≡◌, false, List, ℕ, ◌≤◌, ◌<◌, length, Ok};
ghost use Rattle.definition.specs.Types as d;
ghost use Rattle.definition.specs.Write.{Bytes, write_error};
ghost use Rattle.definition.specs.Step.{behind, number_of_error};
ghost use Rattle.refusals.specs.Refusals.{refusal_of};
ghost use Rattle.table.specs.State.{error_of, view, seen, Lay, TypesIn};
ghost use Rattle.table.specs.Did.{held, tables};
ghost use Rattle.snapshot.specs.Snap.{Above, Since};
ghost use Rattle.snapshot.specs.Back.{rows_of, GrownFrom};
ghost use Rattle.writer.specs.Bytes.{AllBytes};
ghost use Rattle.payload.specs.Payload.{shown, tail_bytes, Shows, Paid};
ghost use Rattle.canonical.specs.Named.{spelling_of, AllNumbered};
ghost use Rattle.ready.specs.Spell.{Spells};
ghost use Rattle.answer.specs.Ran.{Tells, Settles, Still, answered, told_by, spelled_by, success, failure, refused_by, Answers};
ghost use Rattle.answer.specs.Answered.{AnswersIn};

use canonical::Spelling;
use payload::{Answer, Show, as_before, as_left, write_payload};
use refusals::Refusal;
use snapshot::before::Before;
use snapshot::{give_back, go_back, put_vars, undo};
use table::state::{State, Stop};
use table::{TypingError, Used};

// What a run left, and what its answer shows. The number is in the result, as the step answered it, and not in `show`, which is known before the run.
#[derive(Clone, Copy)]
pub struct Ran {
    pub result: Result<u32, Stop>,
    pub show: Show,
    // The count behind what a success or an error shows.
    pub tail: Option<u32>,
    // Whether a success leaves the state as it is, or as it was at entry: a record that only asks for a type takes nodes to show it.
    // A flag, as payload's Answer has it: result and payload are said either way.
    pub kept: bool,
}

// ---- the answers, by words and counts: whether the words are a state after them hangs on what was saved

// The payload of the state that the words are.
fn pay(
    w: &mut [u32],
    u: Used,
    show: Show,
    t: u32,
    tail: Option<u32>,
    buf: &mut [u8],
) -> Option<usize>
    requires { Lay w.old u × (Shows u show t × (AllBytes (view w.old u) × (4096 ≤ length buf.old))) }
    ensures { (w.new ≡ w.old) × ((ds : List d.Struct) → Paid (behind (tail_bytes tail) (shown show t (seen w.old u ds))) buf.old buf.new result) }
{
    let st = State::new(w, u);
    write_payload(&st, show, t, tail, buf)
}

// A refusal: nothing is changed.
pub fn refuse(w: &mut [u32], u: Used, before: Before<'_>, x: Refusal) -> Answer
    requires { Lay w.old u × Above before.used u }
    ensures { (buf : List ℕ) → Answers w.old u before.entry.used (rows_of before.entry) buf w.new buf result (refused_by (refusal_of x)) }
{
    undo(w, u, before);
    as_before(before.used, x.number(), 0)
}

// A success with the number t. Where its state is not kept, no variable was bound or marked: what was taken is given back. `kept` is the run's.
fn succeed(
    w: &mut [u32],
    u: Used,
    before: Before<'_>,
    kept: bool,
    show: Show,
    t: u32,
    tail: Option<u32>,
    buf: &mut [u8],
) -> Answer
    requires lay { Lay w.old u × Above before.used u }
    requires shows { Shows u show t × (AllBytes (view w.old u) × (4096 ≤ length buf.old)) }
    requires still { kept ≡ false → Still w.old u before.used before.saved.now }
    ensures { Answers w.old u before.entry.used (rows_of before.entry) buf.old w.new buf.new result (success kept show t tail) }
{
    let Some(len) = pay(w, u, show, t, tail, buf) else {
        return refuse(w, u, before, Refusal::AnswerTooLong);
    };
    if kept {
        return as_left(u, 0, len);
    }
    give_back(w, u, before.used);
    as_before(before.used, 0, len)
}

// An error with this number, and what it shows. Bindings and marks are those at entry.
fn fail_with(
    w: &mut [u32],
    u: Used,
    before: Before<'_>,
    number: u32,
    show: Show,
    tail: Option<u32>,
    buf: &mut [u8],
) -> Answer
    requires lay { Lay w.old u × Above before.used u }
    requires shows { Shows u show 0 × (AllBytes (view w.old u) × (4096 ≤ length buf.old)) }
    ensures { (e : d.TypingError) → number_of_error e ≡ number → ((s : d.State) → write_error s e ≡ shown show 0 s) → Answers w.old u before.entry.used (rows_of before.entry) buf.old w.new buf.new result (failure e tail) }
{
    let Some(len) = pay(w, u, show, 0, tail, buf) else {
        return refuse(w, u, before, Refusal::AnswerTooLong);
    };
    put_vars(w, u, before);
    as_left(u, number, len)
}

// A typing error: it shows two types, or a location.
fn fail(
    w: &mut [u32],
    u: Used,
    before: Before<'_>,
    e: TypingError,
    tail: Option<u32>,
    buf: &mut [u8],
) -> Answer
    requires lay { Lay w.old u × Above before.used u }
    requires types_in { TypesIn u.nodes e × (AllBytes (view w.old u) × (4096 ≤ length buf.old)) }
    ensures { Answers w.old u before.entry.used (rows_of before.entry) buf.old w.new buf.new result (failure (error_of e) tail) }
{
    match e {
        TypingError::SubtypeError(a, b) => fail_with(w, u, before, 1, Show::Two(a, b), tail, buf),
        TypingError::Incompatible(a, b) => fail_with(w, u, before, 2, Show::Two(a, b), tail, buf),
        TypingError::ArityMismatch(a, b) => fail_with(w, u, before, 3, Show::Two(a, b), tail, buf),
        TypingError::RecursiveType(loc) => fail_with(
            w,
            u,
            before,
            4,
            Show::Location(loc),
            tail,
            buf,
        ),
    }
}

// The answer to what a run left.
// Refused (must-fail/): no space, whatever the refusal (refused_is_full).
pub fn answer_of(w: &mut [u32], u: Used, before: Before<'_>, ran: Ran, buf: &mut [u8]) -> Answer
    requires lay { Lay w.old u × Above before.used u }
    requires tells { Tells u ran.show ran.result × ((Settles ran.result → AllBytes (view w.old u)) × (4096 ≤ length buf.old)) }
    requires still { (t : ℕ) → ran.result ≡ Ok t → ran.kept ≡ false → Still w.old u before.used before.saved.now }
    ensures { Answers w.old u before.entry.used (rows_of before.entry) buf.old w.new buf.new result (answered ran) }
{
    match ran.result {
        Ok(t) => succeed(w, u, before, ran.kept, ran.show, t, ran.tail, buf),
        Err(Stop::Failed(e)) => fail(w, u, before, e, ran.tail, buf),
        Err(Stop::Refused(x)) => refuse(w, u, before, x),
    }
}

// A payload that is in the buffer, if any, and the state at entry. No variable was bound or marked.
fn answer_spelled(
    w: &mut [u32],
    u: Used,
    before: Before<'_>,
    spelled: Result<usize, Refusal>,
) -> Answer
    requires lay { Lay w.old u × Above before.used u }
    requires still { Still w.old u before.used before.saved.now }
    ensures is { (m : d.State → d.Result Bytes) (buf buf' : List ℕ) → ((ds : List d.Struct) → Spells (m (seen w.old u ds)) buf buf' spelled) → Answers w.old u before.entry.used (rows_of before.entry) buf w.new buf' result (told_by m) }
    ensures lay { (w₀ : List ℕ) → Since w₀ before.entry.used (rows_of before.entry) w.old u → Lay w.new result.used }
{
    match spelled {
        Ok(len) => {
            let entry = before.used;
            give_back(w, u, entry);
            as_before(entry, 0, len)
        }
        Err(x) => refuse(w, u, before, x),
    }
}

// ---- the same of a state that has grown from the words w0, of which `before` was saved

// Refused: the counts at entry after an answer whose state is kept (settled_counts_of_before).
pub fn settle(st: &mut State<'_>, before: Before<'_>, ran: Ran, buf: &mut [u8]) -> Answer
    ghost w0: { List ℕ }
    requires grown { GrownFrom w0 before st.old }
    requires tells { Tells st.old.used ran.show ran.result × ((Settles ran.result → AllBytes (tables st.old)) × (4096 ≤ length buf.old)) }
    requires still { (t : ℕ) → ran.result ≡ Ok t → ran.kept ≡ false → Still st.old.words.now st.old.used before.used before.saved.now }
    ensures { AnswersIn w0 before.entry st.old st.new buf.old buf.new result (answered ran) }
{
    let before = before.since(st.touched);
    let w = &mut *st.words;
    let a = answer_of(w, st.used, before, ran, buf);
    st.used = a.used;
    a
}

// Refused: nodes that stay in use (refused_nodes_stay).
pub fn settle_refusal(st: &mut State<'_>, before: Before<'_>, x: Refusal) -> Answer
    ghost w0: { List ℕ }
    requires { GrownFrom w0 before st.old }
    ensures { (buf : List ℕ) → AnswersIn w0 before.entry st.old st.new buf buf result (refused_by (refusal_of x)) }
{
    go_back(st, before);
    as_before(st.used, x.number(), 0)
}

// What was spelled from a state that only reading has changed: the payload is in the buffer, or nothing is.
pub fn settle_spelled(
    st: &mut State<'_>,
    before: Before<'_>,
    spelled: Result<usize, Refusal>,
) -> Answer
    ghost w0: { List ℕ }
    requires grown { GrownFrom w0 before st.old }
    requires still { Still st.old.words.now st.old.used before.used before.saved.now }
    ensures { (m : d.State → d.Result Bytes) (buf buf' : List ℕ) → ((ds : List d.Struct) → Spells (m (held st.old ds)) buf buf' spelled) → AnswersIn w0 before.entry st.old st.new buf buf' result (told_by m) }
{
    let before = before.since(st.touched);
    let w = &mut *st.words;
    let told = answer_spelled(w, st.used, before, spelled);
    st.used = told.used;
    told
}

// RD or CN of type t, for which no node is made.
pub fn settle_ready(
    st: &mut State<'_>,
    before: Before<'_>,
    t: u32,
    spelling: Spelling,
    buf: &mut [u8],
) -> Answer
    ghost w0: { List ℕ }
    requires grown { GrownFrom w0 before st.old }
    requires shows { (t < st.old.used.nodes) × ((AllBytes (tables st.old) × AllNumbered (tables st.old)) × (4096 ≤ length buf.old)) }
    requires still { Still st.old.words.now st.old.used before.used before.saved.now }
    ensures { AnswersIn w0 before.entry st.old st.new buf.old buf.new result (spelled_by (spelling_of spelling) t) }
{
    let spelled = ready::spell_type(st, t, spelling, buf);
    settle_spelled(st, before, spelled)
}
