// The public calls for C and Rust, over pointers and lengths: pongiwaru.h beside src/ declares them. Each says outright what it gives, whatever it is lent.
#![tactic(auto)]

ghost use Rattle.std.specs.Prelude.{◌≡◌, ◌-◌, ◌≤◌, length as size, drop};
ghost use Rattle.engine.specs.Public.{lent_step, answer_of, GivesAnswer, lent_lines, fresh_lines, number_of, lines_of, GivesLines};
ghost use Rattle.engine.specs.Rest.{rest_of};
ghost use Rattle.recheck.specs.Check.{check_step};

use engine::{Answered, Lines, Unsound};

// ---- what a caller was built against

// The header's PONGIWARU_VERSION, of this archive. Refused (must-fail/): the version before (version_before).
#[unsafe(no_mangle)]
pub extern "C" fn pongiwaru_version() -> u32
    ensures { result ≡ 12 }
{
    12
}

// The header's PONGIWARU_LAYOUT, of this archive.
#[unsafe(no_mangle)]
pub extern "C" fn pongiwaru_layout() -> u32
    ensures { result ≡ 1 }
{
    1
}

// ---- one record

// What a record's call returns and writes: 15 for a state that is not sound, or too short a buffer.
// Refused: a length on 15 (length_on_15).
#[tactic(auto, unfolding(definition::specs::Step::number_of_refusal))]
fn answered(r: Result<Answered, Unsound>, length: &mut u32) -> u32
    ensures { record { number = result; length = length.new } ≡ answer_of r }
{
    match r {
        Ok(a) => {
            *length = a.length;
            a.number
        }
        Err(e) => {
            *length = 0;
            e.number()
        }
    }
}

// One record, lent whole. The result is the answer's number; the payload stands in front of the answer buffer, and length is how long it is.
#[unsafe(no_mangle)]
pub extern "C" fn pongiwaru_record(
    state: &mut [u32],
    params: &mut [[u8; 8]; 256],
    record: &[u8],
    answer: &mut [u8],
    length: &mut u32,
) -> u32
    ensures { GivesAnswer (lent_step state.old params.old «record».now (size answer.old)) answer.old (record { number = result; length = length.new }) state.new params.new answer.new }
{
    let r = engine::lent_record(state, params, record, answer);
    answered(r, length)
}

// The same by the slow engine, of JN, SU, UF and RD alone: to check the call before by.
// Refused: the engine that is to be checked (checked_by_itself).
#[unsafe(no_mangle)]
pub extern "C" fn pongiwaru_check_record(
    state: &mut [u32],
    params: &mut [[u8; 8]; 256],
    record: &[u8],
    answer: &mut [u8],
    length: &mut u32,
) -> u32
    ensures { GivesAnswer (check_step state.old params.old «record».now (size answer.old)) answer.old (record { number = result; length = length.new }) state.new params.new answer.new }
{
    let r = recheck::check_record(state, params, record, answer);
    answered(r, length)
}

// How many bytes of the stream are left after one record; all of them on 5, 6, 15 and 18. The state is as it was.
// Refused: the bytes read in place of those left (rest_from_the_front).
#[unsafe(no_mangle)]
pub extern "C" fn pongiwaru_split(
    state: &mut [u32],
    params: &[[u8; 8]; 256],
    stream: &[u8],
    rest: &mut usize,
)
    ensures state_unchanged { state.new ≡ state.old }
    ensures rest_bound { rest.new ≤ size stream.now }
    ensures stream_after { drop (size stream.now - rest.new) stream.now ≡ rest_of state.old params.now stream.now }
{
    *rest = engine::split(state, params, stream).len();
}

// ---- a job

// What a job's call returns and writes: 0, or 15 for a state that is not sound.
// Refused: an end that the lines don't give (ended_at_once).
#[tactic(auto, unfolding(definition::specs::Step::number_of_refusal))]
fn told(
    r: Result<Lines, Unsound>,
    written: &mut usize,
    read: &mut usize,
    index: &mut u64,
    ended: &mut bool,
) -> u32
    ensures { (result ≡ number_of r) × (record { read = read.new; written = written.new; index = index.new; ended = ended.new } ≡ lines_of index.old r) }
{
    let (number, lines) = match r {
        Ok(lines) => (0, lines),
        Err(e) => (e.number(), Lines::unsound(*index)),
    };
    *written = lines.written;
    *read = lines.read;
    *index = lines.index;
    *ended = lines.ended;
    number
}

// A job's next lines. The result is 0, or 15 for a state that is not sound.
// Refused: bytes waited for that don't follow (always_more).
#[unsafe(no_mangle)]
pub extern "C" fn pongiwaru_job(
    state: &mut [u32],
    params: &mut [[u8; 8]; 256],
    stream: &[u8],
    more: bool,
    log: &mut [u8],
    written: &mut usize,
    read: &mut usize,
    index: &mut u64,
    ended: &mut bool,
) -> u32
    ensures { GivesLines (lent_lines state.old params.old index.old stream.now (size log.old) more) stream.now log.old result (record { read = read.new; written = written.new; index = index.new; ended = ended.new }) state.new params.new log.new }
{
    let first = *index;
    let r = engine::job(state, params, stream, more, log, first);
    told(r, written, read, index, ended)
}

// A job's first lines, from a fresh state: words and parameter bytes may hold anything. The result is 0, or 15 where there are not 24,069 words.
#[unsafe(no_mangle)]
pub extern "C" fn pongiwaru_fresh_job(
    state: &mut [u32],
    params: &mut [[u8; 8]; 256],
    stream: &[u8],
    more: bool,
    log: &mut [u8],
    written: &mut usize,
    read: &mut usize,
    index: &mut u64,
    ended: &mut bool,
) -> u32
    ensures { GivesLines (fresh_lines state.old params.old stream.now (size log.old) more) stream.now log.old result (record { read = read.new; written = written.new; index = index.new; ended = ended.new }) state.new params.new log.new }
{
    *index = 0;
    let r = engine::fresh_job(state, params, stream, more, log);
    told(r, written, read, index, ended)
}
