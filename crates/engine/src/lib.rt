// The public calls: one lent record, a job's first lines and its next ones, and the splitter of the crate below. Each says outright what it gives,
// whatever it is lent.
#![tactic(auto)]

ghost use Rattle.std.specs.Prelude.{◌≡◌, true, ◌≤◌, length as size};
ghost use Rattle.definition.specs.Step.{least_buffer};
ghost use Rattle.sound.specs.Lent.{lent_sound};
ghost use Rattle.engine.specs.Public.{lent_step, answer_of, GivesAnswer, lent_lines, fresh_lines, number_of, lines_of, GivesLines};

pub use lent::Unsound;
use lent::tested;
use limits::fits;
pub use lines::Lines;
use lines::lines_trusted;
use snapshot::SAVED;
use sound::used_of;
pub use split::split;
use step::{NAMES, step_trusted};
use table::WORDS;
use table::state::State;

// The number of an answer, and how long the payload in front of the buffer is.
#[derive(Clone, Copy)]
pub struct Answered {
    pub number: u32,
    pub length: u32,
}

// ---- one record

// One record, lent whole, on a sound state.
fn record_trusted(
    state: &mut [u32],
    params: &mut [[u8; 8]; 256],
    record: &[u8],
    answer: &mut [u8],
) -> Answered
    requires { (lent_sound state.old params.old ≡ true) × (least_buffer «record».now ≤ size answer.old) }
    ensures { GivesAnswer (lent_step state.old params.old «record».now (size answer.old)) answer.old result state.new params.new answer.new }
{
    let used = used_of(state);
    let mut st = State::new(state, used);
    let mut saved = [0u32; SAVED];
    let mut names = [0u16; NAMES];
    let r = step_trusted(
        &mut st, params, record, 0, true, &mut saved, &mut names, answer,
    );
    st.write_used();
    Answered {
        number: r.number,
        length: r.len as u32,
    }
}

// One record, lent whole: bytes left over are 5.
// Refused (here and in limits): bytes left over let through (left_over_passed).
pub fn lent_record(
    state: &mut [u32],
    params: &mut [[u8; 8]; 256],
    record: &[u8],
    answer: &mut [u8],
) -> Result<Answered, Unsound>
    ensures { GivesAnswer (lent_step state.old params.old «record».now (size answer.old)) answer.old (answer_of result) state.new params.new answer.new }
{
    if !fits(record, answer.len()) {
        return Err(Unsound);
    }
    tested(state, params)?;
    Ok(record_trusted(state, params, record, answer))
}

// ---- a job

// A job's next lines on a sound state.
fn job_trusted(
    state: &mut [u32],
    params: &mut [[u8; 8]; 256],
    stream: &[u8],
    more: bool,
    log: &mut [u8],
    index: u64,
) -> Lines
    requires { lent_sound state.old params.old ≡ true }
    ensures { GivesLines (lent_lines state.old params.old index stream.now (size log.old) more) stream.now log.old 0 result state.new params.new log.new }
{
    let used = used_of(state);
    let mut st = State::new(state, used);
    let lines = lines_trusted(&mut st, params, stream, more, log, index);
    st.write_used();
    lines
}

// A job's next lines: those of as many records as the bytes at hand hold whole and the log surely has room for. `more`: further bytes follow, a flag as C gives it.
// The state is tested once. `index` is the next record's number.
pub fn job(
    state: &mut [u32],
    params: &mut [[u8; 8]; 256],
    stream: &[u8],
    more: bool,
    log: &mut [u8],
    index: u64,
) -> Result<Lines, Unsound>
    ensures { GivesLines (lent_lines state.old params.old index stream.now (size log.old) more) stream.now log.old (number_of result) (lines_of index result) state.new params.new log.new }
{
    tested(state, params)?;
    Ok(job_trusted(state, params, stream, more, log, index))
}

// A job's first lines: the call clears words and parameter bytes, whatever they held, and tests nothing. `job` goes on from there.
// Refused: parameter bytes left as they were (params_kept), numbers from 1 (first_is_1).
pub fn fresh_job(
    state: &mut [u32],
    params: &mut [[u8; 8]; 256],
    stream: &[u8],
    more: bool,
    log: &mut [u8],
) -> Result<Lines, Unsound>
    ensures { GivesLines (fresh_lines state.old params.old stream.now (size log.old) more) stream.now log.old (number_of result) (lines_of 0 result) state.new params.new log.new }
{
    if state.len() != WORDS {
        return Err(Unsound);
    }
    state.fill(0);
    *params = [[0; 8]; 256];
    Ok(job_trusted(state, params, stream, more, log, 0))
}
