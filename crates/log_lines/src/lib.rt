// The log's lines: record number, answer number and payload, as text.
#![tactic(auto)]

ghost use Rattle.std.specs.Prelude.{◌≡◌, ◌+◌, ◌*◌, ◌<◌, ◌≤◌, length, take, drop};
ghost use Rattle.definition.specs.Job.{decimal, hexadecimal, payload_text};
ghost use Rattle.log_lines.specs.Line.{Wrote, begin_of, end_of};

use itoa::Buffer;

// How far behind the begin of an answer's number its payload stands.
pub const PAYLOAD_AT: usize = 2;

// Puts these bytes at place `at`; the place after them. As writer's put_bytes: a crate under both for these lines is no plainer, and this one
// stands on the definition alone.
fn put(bytes: &[u8], log: &mut [u8], at: usize) -> usize
    requires { at + length bytes.now ≤ length log.old }
    ensures { Wrote log.old at bytes.now log.new result }
{
    let end = at + bytes.len();
    log[at..end].copy_from_slice(bytes);
    end
}

// One digit, as nearly every answer's number is, goes without a copy, for speed: one whose length is not known is a call.
// Refused (must-fail/): a digit one more (digit_one_more).
#[inline(always)]
fn write_decimal(x: u64, log: &mut [u8], at: usize) -> usize
    requires { at + length (decimal x) ≤ length log.old }
    ensures { Wrote log.old at (decimal x) log.new result }
{
    if x < 10 {
        return put(&[b'0' + x as u8], log, at);
    }
    put(Buffer::new().format(x).as_bytes(), log, at)
}

// The text of a payload of `len` bytes, two digits a byte, 0 to 9, then a to f, put over the payload, which stands in front. From the last byte to
// the first: digits never cover a byte that is still to be read.
// Refused: bytes read where digits were put (read_where_covered), digits in upper case (upper_case).
fn spell(text: &mut [u8], len: usize)
    requires { length text.old ≡ 2 * len }
    ensures { text.new ≡ hexadecimal (take len text.old) }
{
    for k in (0..len).rev() {
        let byte = text[k];
        hex::encode_to_slice([byte], &mut text[2 * k..2 * k + 2]).unwrap();
    }
}

// A space and the text of the payload, whose bytes stand where its text will begin; nothing of an empty one.
fn write_payload(len: usize, log: &mut [u8], at: usize) -> usize
    requires { at + 1 + 2 * len ≤ length log.old }
    ensures { Wrote log.old at (payload_text (take len (drop (at + 1) log.old))) log.new result }
{
    if len == 0 {
        return at;
    }
    let next = put(b" ", log, at);
    let end = next + 2 * len;
    spell(&mut log[next..end], len);
    end
}

// The begin of the line of record `index`; the place after it.
// Refused: digits from 1 on (digits_from_one).
pub fn begin_line(index: u64, log: &mut [u8], at: usize) -> usize
    requires { at + length (begin_of index) ≤ length log.old }
    ensures { Wrote log.old at (begin_of index) log.new result }
{
    let next = write_decimal(index, log, at);
    put(b" ", log, next)
}

// The rest of it, answered by `number`, with a payload of `len` bytes; the place after it. The payload stands in the log already, PAYLOAD_AT behind
// `at`, where its text begins: the number of an answer with a payload has one digit, and a space follows.
// Refused: 0 for every record (zero_for_all).
pub fn end_line(number: u32, len: usize, log: &mut [u8], at: usize) -> usize
    requires one_digit { 0 < len → number < 10 }
    requires room { (at + 2 + len ≤ length log.old) × (at + length (end_of number (take len (drop (at + 2) log.old))) ≤ length log.old) }
    ensures { Wrote log.old at (end_of number (take len (drop (at + 2) log.old))) log.new result }
{
    let a = write_decimal(u64::from(number), log, at);
    let b = write_payload(len, log, a);
    put(b"\n", log, b)
}
