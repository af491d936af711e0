// One engine beside the other: what both gave from the same state, compared.

ghost use Rattle.std.specs.Prelude.{◌≡◌, ◌&&◌, ◌+◌, ◌^◌, ◌<◌, Decides, length};
ghost use Rattle.engine.specs.Public.{lent_step, answer_of};
ghost use Rattle.recheck.specs.Check.{check_step};
ghost use Rattle.checklog.specs.Checked.{Leaves, Checked, Tallied};

use engine::{Answered, Unsound};
use limits::{MAX_BUFFER, MAX_MANY};
use table::WORDS;

// How many records both answered, and whether all answers and states were the same.
#[derive(Clone, Copy)]
pub struct Tally {
    pub many: u64,
    pub same: bool,
}

impl Tally {
    // One more, the same by both or not.
    fn with(self, one: bool) -> Tally
        requires { self.many + 1 < 2 ^ 64 }
        ensures { result ≡ record { many = self.many + 1; same = self.same && one } }
    {
        Tally {
            many: self.many + 1,
            same: self.same && one,
        }
    }
}

// 15 is a number as others, without a payload.
fn told(r: Result<Answered, Unsound>) -> Answered
    ensures { result ≡ answer_of r }
{
    r.unwrap_or(Answered {
        number: 15,
        length: 0,
    })
}

fn same_told(a: Answered, b: Answered) -> bool
    ensures { Decides result (a ≡ b) }
{
    a.number == b.number && a.length == b.length
}

fn same_words(a: &[u32], b: &[u32]) -> bool
    ensures { Decides result (a.now ≡ b.now) }
{
    a == b
}

fn same_bytes(a: &[u8], b: &[u8]) -> bool
    ensures { Decides result (a.now ≡ b.now) }
{
    a == b
}

fn same_rows(a: &[[u8; 8]; 256], b: &[[u8; 8]; 256]) -> bool
    ensures { Decides result (a.now ≡ b.now) }
{
    a == b
}

fn all_four(a: bool, b: bool, c: bool, d: bool) -> bool
    ensures { result ≡ a && (b && (c && d)) }
{
    a && b && c && d
}

// The record by both, from the same words and parameter bytes, which go on with what the engine leaves: whether number, payload, words and parameter bytes are
// the same.
fn same_by_both(words: &mut [u32], rows: &mut [[u8; 8]; 256], record: &[u8]) -> bool
    requires { length words.old ≡ 24069 }
    ensures same { Decides result (lent_step words.old rows.old «record».now 4096 ≡ check_step words.old rows.old «record».now 4096) }
    ensures goes_on { Leaves (lent_step words.old rows.old «record».now 4096) words.new rows.new }
{
    let mut slow_words = [0u32; WORDS];
    slow_words.copy_from_slice(words);
    let mut slow_rows = *rows;
    let mut payload = [0u8; MAX_BUFFER];
    let mut slow_payload = [0u8; MAX_BUFFER];
    let a = engine::lent_record(words, rows, record, &mut payload);
    let b = recheck::check_record(&mut slow_words, &mut slow_rows, record, &mut slow_payload);
    let numbers = same_told(told(a), told(b));
    let payloads = same_bytes(&payload, &slow_payload);
    let all_words = same_words(words, &slow_words);
    let all_rows = same_rows(rows, &slow_rows);
    all_four(numbers, payloads, all_words, all_rows)
}

// .. of another mark by the engine alone.
fn by_one(words: &mut [u32], rows: &mut [[u8; 8]; 256], record: &[u8], payload: &mut [u8])
    requires { length payload.old ≡ 61485 }
    ensures goes_on { Leaves (lent_step words.old rows.old «record».now 61485) words.new rows.new }
    ensures same_room { length payload.new ≡ 61485 }
{
    let _ = engine::lent_record(words, rows, record, payload);
}

// Record after record from these words and parameter bytes on, up to the first that cannot be read.
fn check_from(words: &mut [u32], rows: &mut [[u8; 8]; 256], stream: &[u8]) -> Tally
    requires { length words.old ≡ 24069 }
    ensures { Checked words.old rows.old stream.now result }
{
    let mut payload = [0u8; MAX_MANY];
    let mut tally = Tally {
        many: 0,
        same: true,
    };
    let mut rest = stream;
    for _record in 0..stream.len() {
        let after = engine::split(words, rows, rest);
        let record = &rest[..rest.len() - after.len()];
        if record.is_empty() {
            return tally;
        }
        if recheck::is_checked(record) {
            let one = same_by_both(words, rows, record);
            tally = tally.with(one);
        } else {
            by_one(words, rows, record, &mut payload);
        }
        rest = after;
    }
    tally
}

// .. from a fresh state.
pub fn check_all(stream: &[u8]) -> Tally
    ensures { Tallied stream.now result }
{
    let mut words = [0u32; WORDS];
    let mut rows = [[0u8; 8]; 256];
    check_from(&mut words, &mut rows, stream)
}
