// What a call's buffer, bytes and log allow, and the numbers that end a job.
#![tactic(auto)]

ghost use Rattle.std.specs.Prelude.{◌≡◌, ◌≤◌, leb, length, drop};
ghost use Rattle.definition.specs.Step.{least_buffer};
ghost use Rattle.definition.specs.Job.{ends_job};
ghost use Rattle.pieces.specs.Pieces.{takes_on};

use cursor::MAX_RECORD;
use refusals::Refusal;

// The fewest bytes of an answer's buffer, an MJ's and any other record's, and the number that no record has.
pub const MAX_MANY: usize = 61485;

pub const MAX_BUFFER: usize = 4096;

const MAX_INDEX: u64 = 18446744073709551615;

// The bytes that a record wants of an answer's buffer, told by its first two, whatever follows them.
// Refused (must-fail/): told by the first alone (many_by_one_letter), an MJ's for every record (others_want_61485), 4,097 (fifteen_at_4096).
#[tactic(auto, unfolding(definition::specs::Step::least_buffer, definition::specs::Step::max_many, definition::specs::Step::max_buffer))]
fn least_buffer(record: &[u8]) -> usize
    ensures told { result ≡ least_buffer «record».now }
    ensures most { result ≤ 61485 }
{
    if record.starts_with(b"MJ") {
        MAX_MANY
    } else {
        MAX_BUFFER
    }
}

// Whether an answer's buffer is long enough for the record: else the call is 15.
pub fn fits(record: &[u8], buffer: usize) -> bool
    ensures { result ≡ leb (least_buffer «record».now) buffer }
{
    least_buffer(record) <= buffer
}

// Whether record `index`, at place `at` of the bytes at hand, is taken on with so much room in the log: it is surely whole, its longest line has room,
// 20 digits, a space, 2 digits, a space, two for each byte of its payload, the end, and a number is left.
// Refused: a record begun that may not be whole (cut_one_early), an MJ where just another's line has room (room_of_others).
#[tactic(auto, unfolding(pieces::specs::Pieces::takes_on, pieces::specs::Pieces::line_room, pieces::specs::Pieces::max_index, definition::specs::Record::max_record))]
pub fn takes_on(index: u64, stream: &[u8], at: usize, room: usize, more: bool) -> bool
    requires { at ≤ length stream.now }
    ensures { result ≡ takes_on index (drop at stream.now) room more }
{
    let record = &stream[at..];
    (!more || MAX_RECORD <= record.len())
        && 25 + 2 * least_buffer(record) <= room
        && index < MAX_INDEX
}

// A record that could not be read ends a job: by the number, as 01 says it of answers.
// Refused: a job that goes on after 6 (six_goes_on) or after 18 (eighteen_goes_on).
#[tactic(auto, unfolding(definition::specs::Job::ends_job, definition::specs::Step::number_of_refusal))]
pub fn ends_job(number: u32) -> bool
    ensures { result ≡ ends_job number }
{
    number == Refusal::Malformed.number()
        || number == Refusal::UnknownName.number()
        || number == Refusal::DoubledReference.number()
}
