// Reads a stream of records from standard input, starts from a fresh state, and writes the log: a line for each record.
#![tactic(auto)]

ghost use Rattle.std.specs.Prelude.{◌≡◌, ◌≤◌, false, length};
ghost use Rattle.definition.specs.Write.{IsBytes};
ghost use Rattle.pieces.specs.Pieces.{max_line};
ghost use Rattle.engine.specs.Public.{GivesLines};
ghost use Rattle.turns.specs.Filling.{lost, Within, first, Took, Gave};
ghost use Rattle.joinlog.specs.Turns.{held, stream, lines_of, bytes_read, text_handed, Listed, Turned, RanOver, Program, WritesLog};

use engine::Lines;
use std::io::{Read, Write};
use table::WORDS;
use turns::{Stage, Turn};

// How many bytes are read ahead, and how much of the log is written at once. Long buffers spare tests of the state, one at each call of `engine::job`.
const ROOM: usize = 262144;

// What the program holds between two turns: the words of the state, the bytes read, the log, and where it stands.
// Not the parameter bytes: they are an array of arrays by value, beside it and no field; `write_log` holds and lends them.
#[derive(Drop)]
struct Job {
    words: [u32; WORDS],
    buf: [u8; ROOM],
    log: [u8; ROOM],
    turn: Turn,
}

impl Job {
    // Before the first turn. With no room for a line no record would be taken on, and no turn would be the last (refused: log_of_122994).
    fn new() -> Job
        ensures at_first { result.turn ≡ first }
        ensures room { max_line ≤ length result.log }
    {
        Job {
            words: [0; WORDS],
            buf: [0; ROOM],
            log: [0; ROOM],
            turn: Turn::first(),
        }
    }

    // The next lines of the job, of the bytes at hand. The first are those from a fresh state, whatever the words hold; then it goes on.
    fn next_lines(&mut self, rows: &mut [[u8; 8]; 256]) -> Lines
        requires { Within self.old.turn self.old.buf }
        ensures lines { GivesLines (lines_of (held self.old rows.old)) (stream self.old) self.old.log (lines_of (held self.old rows.old)).number result self.new.words rows.new self.new.log }
        ensures same_bytes { self.new.buf ≡ self.old.buf }
        ensures same_turn { self.new.turn ≡ self.old.turn }
    {
        let t = self.turn;
        let Job {
            ref mut words,
            ref buf,
            ref mut log,
            ..
        } = *self;
        let stream = &buf[t.from..t.have];
        match t.index {
            Some(index) => engine::job(words, rows, stream, t.more, log, index).unwrap_or(
                Lines::unsound(index),
            ),
            None => engine::fresh_job(words, rows, stream, t.more, log).unwrap_or(Lines::unsound(
                0,
            )),
        }
    }

    // Writes the lines of the records at hand, as many as the log takes.
    fn list<W: Write>(&mut self, rows: &mut [[u8; 8]; 256], output: &mut W)
        requires { Within self.old.turn self.old.buf }
        ensures listed { Listed (held self.old rows.old) (held self.new rows.new) }
        ensures gave { Gave (W.contents output.old) (W.contents output.new) (text_handed self.new) self.new.turn.stage }
    {
        let lines = self.next_lines(rows);
        let t = self.turn;
        self.turn = t.hand_over(output, &self.log[..lines.written], lines);
    }

    // Reads on where a record may not be whole, else writes lines.
    fn one_turn<R: Read, W: Write>(
        &mut self,
        rows: &mut [[u8; 8]; 256],
        input: &mut R,
        output: &mut W,
    )
        requires { Within self.old.turn self.old.buf }
        ensures turned { Turned (held self.old rows.old) (held self.new rows.new) }
        ensures same_room { length self.new.buf ≡ length self.old.buf }
        ensures bytes { IsBytes (bytes_read self.new) }
        ensures took { Took (R.remaining input.old) (R.remaining input.new) (bytes_read self.new) self.old.turn.more self.new.turn.more }
        ensures gave { Gave (W.contents output.old) (W.contents output.new) (text_handed self.new) self.new.turn.stage }
    {
        let t = self.turn;
        if t.is_short() {
            self.turn = t.fill(input, &mut self.buf);
            return;
        }
        self.list(rows, output);
    }

    // Turn after turn until one ends the job. Nothing says that the input ends, so turns are counted: more than any machine makes.
    // What is read and written is named where reader and writer name their bytes, as those over memory do.
    // Refused (must-fail/, here and in turns): numbers from 0 anew (index_from_zero), two turns (two_turns), lines that are not handed over (nothing_handed_over).
    fn run<R: Read, W: Write>(&mut self, rows: &mut [[u8; 8]; 256], input: &mut R, output: &mut W)
        requires at_first { self.old.turn ≡ first }
        requires room { max_line ≤ length self.old.log }
        ensures { RanOver (R.remaining input.old) (R.remaining input.new) (W.contents output.old) (W.contents output.new) (held self.old rows.old) (held self.new rows.new) }
    {
        for _n in 0..u64::MAX {
            if self.turn.stage.is_over() {
                return;
            }
            self.one_turn(rows, input, output);
        }
    }
}

// Turns from the first one on, from a reader to a writer, and how the job stands then. Where the bytes of both are known, the reader's fewer than 2^63 - 1, and nothing
// is lost, the job ends and the writer's grow by their log.
fn write_log<R: Read, W: Write>(input: &mut R, output: &mut W) -> Stage
    ensures turns { Program (R.remaining input.old) (R.remaining input.new) (W.contents output.old) (W.contents output.new) result }
    ensures log { lost result ≡ false → WritesLog (R.remaining input.old) (W.contents output.old) (W.contents output.new) }
{
    let mut job = Job::new();
    let mut rows = [[0u8; 8]; 256];
    job.run(&mut rows, input, output);
    job.turn.stage
}

// No contract can speak of the standard streams, and `main` can have none: that they are handed on, each in its place, is to be seen here, and is run (tests/joinlog.sh).
fn main(rt: HostRuntime) {
    let stage = write_log(&mut rt.stdin(), &mut rt.stdout());
    let _ = rt.stderr().write_all(stage.message());
}
