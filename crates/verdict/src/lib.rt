// What follows from what a record was read into: why it is refused, where the stream goes on, and a new struct's row.
#![tactic(auto)]

ghost use Rattle.std.specs.Prelude.{◌≡◌, ◌&&◌, ◌≤◌, ltb, length};
ghost use Rattle.verdict.specs.Verdict.{row_for, padded, verdict_of, place_after};

use fields::{Params, What};
use payload::Answer;
use refusals::Refusal;
use table::Used;

// ---- SD

// A new struct's row, the first that is free, if there is one and the state is kept.
// Refused (must-fail/): another table's row (row_of_another), a row for a struct that is refused (row_when_refused).
pub fn row_for(number: Option<u32>, a: Answer, u: Used) -> Option<u32>
    ensures { result ≡ row_for number a.kept u.structs }
{
    match number {
        Some(_) if a.kept => Some(u.structs),
        _ => None,
    }
}

// The parameters' bytes, and zeros.
// Refused: bytes behind them that stay (old_bytes_stay).
pub fn padded(params: Params) -> [u8; 8]
    requires { params.many ≤ 8 }
    ensures { (result ≡ padded params.bytes params.many) × (length params.bytes ≡ 8) }
{
    let mut row = params.bytes;
    row[usize::from(params.many)..].fill(0);
    row
}

// ---- what it comes to

// Whether the record is all that is lent, and bytes are left over. `whole` is a flag, as the two public calls differ by it alone.
pub fn left_over(whole: bool, next: usize, long: usize) -> bool
    ensures { result ≡ whole && ltb next long }
{
    whole && next < long
}

// What is run, or why nothing is. Bytes left over are malformed, which comes before no space: a flag, since it is asked only once all was read.
// Refused: no space before bytes left over (full_before_left_over), and where reading stopped (unread_is_full).
pub fn verdict_of(read: Result<Option<What>, Refusal>, over: bool) -> Result<What, Refusal>
    ensures { result ≡ verdict_of read over }
{
    let placed = read?;
    if over {
        return Err(Refusal::Malformed);
    }
    placed.ok_or(Refusal::Full)
}

// Where the stream goes on: 5, 6 and 18 leave it as it is.
// Refused: a stream that goes on behind a malformed record (malformed_passed), one that stays before a record that is run (rest_not_passed).
pub fn place_after(read: Result<Option<What>, Refusal>, at: usize, next: usize) -> usize
    ensures { result ≡ place_after read at next }
{
    match read {
        Ok(_) => next,
        Err(_) => at,
    }
}
