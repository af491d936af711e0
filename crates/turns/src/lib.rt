// A turn of the program joinlog: where it stands in the bytes read, reading on, and handing over the log.
#![tactic(auto)]

ghost use Rattle.std.specs.Prelude.{ℕ, ◌+◌, ◌-◌, ◌^◌, ◌≤◌, ◌<◌, ◌≡◌, ltb, length, take, drop, slice_index};
ghost use Rattle.std.specs.Result.{result_unwrap_or};
ghost use Rattle.std.specs.Io.KnownBytes.{ReadConsumes};
ghost use Rattle.turns.specs.Filling.{ended, lost, first, Within, short, at_hand, Behind, moved, last_read, Filled, Took, handed, Handed, Gave};

use cursor::MAX_RECORD;
use engine::Lines;
use std::io;
use std::io::{Read, Write};

// Whether a job goes on, came to its end, or stops since a read or a write failed.
#[derive(Clone, Copy, Debug, PartialEq, Eq)]
pub enum Stage {
    Going,
    Ended,
    Unread,
    Unwritten,
}

impl Stage {
    pub fn is_over(self) -> bool
        ensures { result ≡ ended self }
    {
        !matches!(self, Stage::Going)
    }

    // What is said of it on standard error: something just where a read or a write failed. Which text it is, is tested.
    // Refused (must-fail/): nothing where a read failed (unread_untold).
    pub fn message(self) -> &'static [u8]
        ensures { ltb 0 (length result.now) ≡ lost self }
    {
        match self {
            Stage::Unread => b"joinlog: standard input cannot be read\n",
            Stage::Unwritten => b"joinlog: the log cannot be written\n",
            Stage::Going | Stage::Ended => b"",
        }
    }
}

// Where the bytes at hand begin and end in the buffer, whether more may follow them (a flag of its own: they may in each stage), and the next record's number, none before the first lines; how many bytes the
// last turn read and how much text it handed to the writer; and how the job stands.
#[derive(Clone, Copy, Debug, PartialEq, Eq)]
pub struct Turn {
    pub from: usize,
    pub have: usize,
    pub more: bool,
    pub index: Option<u64>,
    pub read: usize,
    pub written: usize,
    pub stage: Stage,
}

// ---- reading

// Moves the bytes from `from` up to `have` to the front, and says how many they are.
// Refused (must-fail/): the first of them left where it was (moved_one_late).
fn shift(buf: &mut [u8], from: usize, have: usize) -> usize
    requires { (from ≤ have) × (have ≤ length buf.old) }
    ensures { (result + from ≡ have) × (take result buf.new ≡ at_hand from have buf.old) }
{
    buf.copy_within(from..have, 0);
    have - from
}

// One read, behind the first `have` bytes. It needs room: into none a read brings nothing, as at the stream's end (refused: nothing_read).
fn read_behind<R: Read>(input: &mut R, buf: &mut [u8], have: usize) -> io::Result<usize>
    requires { have < length buf.old }
    ensures behind { Behind buf.old have buf.new result }
    ensures took { ReadConsumes (R.remaining input.old) (R.remaining input.new) result (drop have buf.new) }
{
    input.read(&mut buf[have..])
}

impl Turn {
    // Before the first turn: nothing is read, and no line asked for.
    // Refused: record numbers from 1 (starts_at_one).
    pub fn first() -> Turn
        ensures { result ≡ first }
    {
        Turn {
            from: 0,
            have: 0,
            more: true,
            index: None,
            read: 0,
            written: 0,
            stage: Stage::Going,
        }
    }

    // Whether a record at hand may not be whole.
    // Refused: 4,095 bytes taken for a whole record, in turns that neither read nor list (spins_at_4095).
    pub fn is_short(self) -> bool
        requires { self.from ≤ self.have }
        ensures { result ≡ short self }
    {
        self.more && self.have - self.from < MAX_RECORD
    }

    // What a read came to, behind the `left` bytes in front. One that brings nothing is the stream's end; one that fails ends the job.
    // Refused: more for ever (always_more), a failed read passed over (unread_goes_on) or taken for the end (unread_is_the_end), a read that was made said to have
    // failed (each_read_fails).
    fn moved(self, left: usize, got: io::Result<usize>) -> Turn
        requires { left + result_unwrap_or got 0 < 2 ^ 64 }
        ensures { result ≡ moved self left got }
    {
        let (read, more, stage) = match got {
            Ok(n) => (n, 0 < n, Stage::Going),
            Err(_) => (0, true, Stage::Unread),
        };
        Turn {
            from: 0,
            have: left + read,
            more,
            index: self.index,
            read,
            written: 0,
            stage,
        }
    }

    // What is left goes to the front, and one read brings what is there behind it.
    pub fn fill<R: Read>(self, input: &mut R, buf: &mut [u8]) -> Turn
        requires { Within self buf.old × (self.have - self.from < length buf.old) }
        ensures filled { Filled buf.old self buf.new result }
        ensures bytes { (i : ℕ) → slice_index buf.new i < 256 }
        ensures took { Took (R.remaining input.old) (R.remaining input.new) (last_read result buf.new) self.more result.more }
    {
        let left = shift(buf, self.from, self.have);
        let got = read_behind(input, buf, left);
        self.moved(left, got)
    }

    // ---- writing

    // What a write of these lines' text came to: the job goes on behind them, unless they end it or could not be written.
    // Refused: a fresh state for each piece (begun_anew), no more after the first bytes (no_more), an end after the first lines (ends_at_once) or none after 5, 6 or
    // 18 (six_goes_on), a failed write passed over (lost_write_ignored).
    fn handed(self, text: usize, lines: Lines, done: io::Result<()>) -> Turn
        requires { self.from + lines.read ≤ self.have }
        ensures { result ≡ handed self text lines done }
    {
        let stage = match done {
            Err(_) => Stage::Unwritten,
            Ok(()) if lines.ended => Stage::Ended,
            Ok(()) => Stage::Going,
        };
        Turn {
            from: self.from + lines.read,
            index: Some(lines.index),
            read: 0,
            written: text,
            stage,
            ..self
        }
    }

    // Hands the text of these lines to the writer.
    // Refused: only a first piece of it (first_piece_only), all of it again (written_twice).
    pub fn hand_over<W: Write>(self, output: &mut W, text: &[u8], lines: Lines) -> Turn
        requires { self.from + lines.read ≤ self.have }
        ensures handed { Handed self (length text.now) lines result }
        ensures gave { Gave (W.contents output.old) (W.contents output.new) text.now result.stage }
    {
        let done = output.write_all(text);
        self.handed(text.len(), lines, done)
    }
}
