// The lines of a stream's records, on a state that was tested once.
#![tactic(auto)]

ghost use Rattle.std.specs.Prelude.{◌≡◌};
ghost use Rattle.lines.specs.Lists.{nothing, no_lines, Lists};
ghost use Rattle.step.specs.Trusted.{StandsIn};

use limits::{ends_job, takes_on};
use log_lines::{PAYLOAD_AT, begin_line, end_line};
use snapshot::SAVED;
use step::{NAMES, step_trusted};
use table::state::State;

// How much of a stream was read and how much of a log written, the next record's number, and whether the job ended: a flag, since the others
// are said either way, as C's pointers take them.
#[derive(Clone, Copy)]
pub struct Lines {
    pub read: usize,
    pub written: usize,
    pub index: u64,
    pub ended: bool,
}

impl Lines {
    // Nothing is read or written.
    fn nothing(index: u64, ended: bool) -> Lines
        ensures { result ≡ nothing index ended }
    {
        Lines {
            read: 0,
            written: 0,
            index,
            ended,
        }
    }

    // What an unsound state leaves: the job ends.
    // Refused (must-fail/): a job that goes on from an unsound state (unsound_goes_on).
    pub fn unsound(index: u64) -> Lines
        ensures { result ≡ no_lines index }
    {
        Lines::nothing(index, true)
    }
}

// The lines of as many records as are at hand and have room, on a sound state. A payload is written into the log, where its text will stand.
// `more`: further bytes follow, a flag as C gives it.
// Refused (must-fail/, here and in log_lines): the first record right and 0 after (echoes_0), 0 for every record (zero_for_all).
pub fn lines_trusted(
    st: &mut State<'_>,
    params: &mut [[u8; 8]; 256],
    stream: &[u8],
    more: bool,
    log: &mut [u8],
    index: u64,
) -> Lines
    requires { StandsIn st.old params.old × (st.old.saved ≡ 0) }
    ensures { Lists st.old params.old index stream.now more log.old st.new params.new log.new result }
{
    let mut saved = [0u32; SAVED];
    let mut names = [0u16; NAMES];
    let mut lines = Lines::nothing(index, false);
    // A record is as long as its bytes say: nothing counts through them.
    'records: while lines.read < stream.len() {
        let room = log.len() - lines.written;
        if !takes_on(lines.index, stream, lines.read, room, more) {
            return lines;
        }
        let at = begin_line(lines.index, log, lines.written);
        let buf = &mut log[at + PAYLOAD_AT..];
        let r = step_trusted(
            st, params, stream, lines.read, false, &mut saved, &mut names, buf,
        );
        lines = Lines {
            read: r.next,
            written: end_line(r.number, r.len, log, at),
            index: lines.index + 1,
            ended: ends_job(r.number),
        };
        if lines.ended {
            return lines;
        }
    }
    lines.ended = !more;
    lines
}
