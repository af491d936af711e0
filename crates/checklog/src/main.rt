// Reads a stream of records from standard input, whole, and writes joinlog's log of it. Each JN, SU, UF and RD is run by the slow engine too, from the same
// state; a last line says how many both answered, and whether every number, payload, word and parameter byte was the same.
#![tactic(auto)]

ghost use Rattle.std.specs.Prelude.{◌≡◌, ◌≤◌, false, length, drop, OnOk};
ghost use Rattle.std.specs.Io.KnownBytes.{Appends};
ghost use Rattle.definition.specs.Job.{decimal, joinlog};
ghost use Rattle.engine.specs.Public.{GivesLines, lent_lines};
ghost use Rattle.checklog.specs.Checked.{words_of, verdict, ChecksLog};

mod compare;

use compare::{Tally, check_all};
use engine::Lines;
use itoa::Buffer;
use std::io;
use std::io::{Read, Write};
use table::WORDS;

// How much of the log is written at once.
const ROOM: usize = 262144;

// The next lines of the stream's rest.
fn next_lines(
    words: &mut [u32],
    rows: &mut [[u8; 8]; 256],
    rest: &[u8],
    log: &mut [u8],
    index: u64,
) -> Lines
    ensures { GivesLines (lent_lines words.old rows.old index rest.now (length log.old) false) rest.now log.old (lent_lines words.old rows.old index rest.now (length log.old) false).number result words.new rows.new log.new }
{
    engine::job(words, rows, rest, false, log, index).unwrap_or(Lines::unsound(index))
}

fn behind(bytes: &[u8], n: usize) -> &[u8]
    requires { n ≤ length bytes.now }
    ensures { result.now ≡ drop n bytes.now }
{
    &bytes[n..]
}

// joinlog's lines, call after call, until one ends the job. Nothing here says that one does, so calls are counted: more than any stream has records.
fn write_log<W: Write>(stream: &[u8], output: &mut W) -> io::Result<()>
    ensures { OnOk result (Appends (W.contents output.old) (W.contents output.new) (joinlog stream.now)) }
{
    let mut words = [0u32; WORDS];
    let mut rows = [[0u8; 8]; 256];
    let mut log = [0u8; ROOM];
    let mut rest = stream;
    let mut index: u64 = 0;
    for _call in 0..u64::MAX {
        let lines = next_lines(&mut words, &mut rows, rest, &mut log, index);
        output.write_all(&log[..lines.written])?;
        if lines.ended {
            return Ok(());
        }
        rest = behind(rest, lines.read);
        index = lines.index;
    }
    Err(io::Error::from(io::ErrorKind::Other))
}

// ---- the last line

fn write_number<W: Write>(n: u64, output: &mut W) -> io::Result<()>
    ensures { OnOk result (Appends (W.contents output.old) (W.contents output.new) (decimal n)) }
{
    output.write_all(Buffer::new().format(n).as_bytes())
}

fn words_of(same: bool) -> &'static [u8]
    ensures { result.now ≡ words_of same }
{
    if same {
        b" by both engines, all the same\n"
    } else {
        b" by both engines, not all the same\n"
    }
}

fn write_verdict<W: Write>(tally: Tally, output: &mut W) -> io::Result<()>
    ensures { OnOk result (Appends (W.contents output.old) (W.contents output.new) (verdict tally)) }
{
    write_number(tally.many, output)?;
    output.write_all(words_of(tally.same))
}

// From a reader to a writer. Where it is done, and the reader's bytes are known, the writer's grow by their log, and a line that says how many records both answered, and whether
// all of these alike.
fn check_log<R: Read, W: Write>(rt: &HostRuntime, input: &mut R, output: &mut W) -> io::Result<()>
    ensures { OnOk result (ChecksLog (R.remaining input.old) (W.contents output.old) (W.contents output.new)) }
{
    let mut stream = Vec::new(rt.alloc());
    input.read_to_end(&mut stream)?;
    write_log(&stream, output)?;
    let tally = check_all(&stream);
    write_verdict(tally, output)
}

// No contract can speak of the standard streams.
fn main(rt: HostRuntime) -> io::Result<()> {
    check_log(&rt, &mut rt.stdin(), &mut rt.stdout())
}
