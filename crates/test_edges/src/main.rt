// Runs each job of standard input from a fresh state, and prints its name and the last lines of its log. tools/edges.py makes the jobs and what is to be printed.
// The records are also split off and lent one by one: a line more is printed where the log does not have just their numbers and payloads.
// A job is its size (four bytes, little-endian), then so many bytes: a name, a line end, the stream.
#![tactic(auto)]

ghost use Rattle.std.specs.Prelude.{◌≡◌, ◌+◌, ◌<◌, ◌≤◌, length, IfOk};

use itoa::Buffer;
use limits::MAX_MANY;
use std::io;
use std::io::{Read, Write};
use table::WORDS;

// Of one job's log.
const ROOM: usize = 262144;

// Of all jobs together.
const JOBS: usize = 327680;

// The place after the first line end.
fn after_line(b: &[u8]) -> usize
    ensures { result ≤ length b.now }
{
    match b.iter().position(|x| *x == b'\n') {
        Some(at) => at + 1,
        None => b.len(),
    }
}

// The last seven lines.
fn last_lines(log: &[u8]) -> &[u8]
    ensures { length result.now ≤ length log.now }
{
    let mut ends = (0..log.len())
        .rev()
        .filter(|at| log.get(*at) == Some(&b'\n'));
    match ends.nth(7) {
        Some(at) => log.get(at + 1..).unwrap_or(log),
        None => log,
    }
}

// The stream's log.
fn log_of<'a>(stream: &[u8], log: &'a mut [u8]) -> &'a [u8]
    ensures { length result.now ≤ length log.old }
{
    let mut state = [0u32; WORDS];
    let mut params = [[0u8; 8]; 256];
    match engine::job(&mut state, &mut params, stream, false, log, 0) {
        Ok(lines) if lines.ended => &log[..lines.written],
        _ => &[],
    }
}

// ---- the same records one by one

// 0 to 9, then a to f. By hand, so that the log is held to another writer than the one that wrote it.
fn hex_digit(x: u8) -> u8
    requires { x < 16 }
{
    if x < 10 { b'0' + x } else { b'a' - 10 + x }
}

// What follows the payload, where the log begins with it: a space and its hexadecimal, or nothing.
fn after_payload<'a>(log: &'a [u8], payload: &[u8]) -> Option<&'a [u8]> {
    if payload.is_empty() {
        return Some(log);
    }
    let mut log = log.strip_prefix(b" ")?;
    for b in payload {
        log = log.strip_prefix(&[hex_digit(*b / 16), hex_digit(*b % 16)])?;
    }
    Some(log)
}

// What follows the line of record i, where the log begins with it.
fn after_answer<'a>(log: &'a [u8], i: u64, number: u32, payload: &[u8]) -> Option<&'a [u8]> {
    let mut digits = Buffer::new();
    let log = log.strip_prefix(digits.format(i).as_bytes())?;
    let log = log.strip_prefix(b" ")?;
    let log = log.strip_prefix(digits.format(number).as_bytes())?;
    after_payload(log, payload)?.strip_prefix(b"\n")
}

// How many bytes the record at the head of a stream has, with so many bytes after it: all of them where none was split off.
fn record_size(size: usize, rest: usize) -> usize
    requires { 0 < size }
    ensures { (0 < result) × (result ≤ size) }
{
    if rest < size { size - rest } else { size }
}

// What follows the lines of the stream's records, split off and lent one by one, where the log begins with them.
fn after_lines<'a>(stream: &[u8], log: &'a [u8]) -> Option<&'a [u8]> {
    let mut state = [0u32; WORDS];
    let mut params = [[0u8; 8]; 256];
    let mut answer = [0u8; MAX_MANY];
    let mut stream = stream;
    let mut log = log;
    for i in 0..u64::MAX {
        if stream.is_empty() {
            break;
        }
        let rest = engine::split(&mut state, &params, stream);
        let n = record_size(stream.len(), rest.len());
        let (number, len) = match engine::lent_record(
            &mut state,
            &mut params,
            &stream[..n],
            &mut answer,
        ) {
            Ok(r) => (r.number, r.length as usize),
            Err(e) => (e.number(), 0),
        };
        log = after_answer(log, i, number, answer.get(..len)?)?;
        stream = &stream[n..];
    }
    Some(log)
}

// ---- jobs

fn run_job(mut out: io::Stdout, job: &[u8], log: &mut [u8]) -> io::Result<()> {
    let (name, stream) = job.split_at(after_line(job));
    out.write_all(b"= ")?;
    out.write_all(name)?;
    let log = log_of(stream, log);
    out.write_all(last_lines(log))?;
    if after_lines(stream, log) != Some(&[]) {
        out.write_all(b"its records one by one give other lines\n")?;
    }
    Ok(())
}

fn run_jobs(out: io::Stdout, jobs: &[u8], log: &mut [u8]) -> io::Result<()> {
    let mut rest = jobs;
    // A job is as long as its size says: nothing counts through them.
    while let Some((size, after)) = rest.split_first_chunk::<4>() {
        let Some((job, next)) = after.split_at_checked(u32::from_le_bytes(*size) as usize) else {
            return Ok(());
        };
        run_job(out, job, log)?;
        rest = next;
    }
    Ok(())
}

// Fills the buffer as far as the input goes; how many bytes that is.
fn read_full(mut input: io::Stdin, buf: &mut [u8]) -> io::Result<usize>
    ensures { IfOk result (λ n. n ≤ length buf.old) }
{
    let mut n: usize = 0;
    // A read brings as many bytes as it likes.
    while n < buf.len() {
        let got = input.read(&mut buf[n..])?;
        if got == 0 {
            break;
        }
        n += got;
    }
    Ok(n)
}

fn main(rt: HostRuntime) -> io::Result<()> {
    let mut buf = [0u8; JOBS];
    let mut log = [0u8; ROOM];
    let n = read_full(rt.stdin(), &mut buf)?;
    run_jobs(rt.stdout(), &buf[..n], &mut log)
}
