// KP's payload: old and new number of each variable that stays.

ghost use Rattle.std.specs.Prelude.{◌≡◌, ◌+◌, ◌++◌, ◌≤◌, length};
ghost use Rattle.definition.specs.Write.{u16};
ghost use Rattle.definition.specs.Keep.{those_below};
ghost use Rattle.writer.specs.Bytes.{Wrote};
ghost use Rattle.keep.specs.Numbered.{among, pairs};

use crate::numbers::number_of;
use table::wide;
use writer::put_u16;

// Refused (must-fail/): the new number where the old one stands (new_number_first).
fn write_pair(old: u32, new: u16, buf: &mut [u8], at: usize) -> usize
    requires { at + 4 ≤ length buf.old }
    ensures { Wrote buf.old at (u16 old ++ u16 new) buf.new result }
{
    let next = put_u16(buf, at, old);
    put_u16(buf, next, u32::from(new))
}

// Of the first n variables; how many bytes they are.
pub fn write_survivors(vars: &[bool], numbers: &[u16], n: u32, buf: &mut [u8]) -> usize
    requires { (n ≤ 1024) × ((length vars.now ≡ 1024) × (4096 ≤ length buf.old)) }
    ensures { Wrote buf.old 0 (pairs numbers.now (those_below n (among vars.now))) buf.new result }
{
    let mut next: usize = 0;
    for v in 0..n {
        if !vars[wide(v)] {
            continue;
        }
        next = write_pair(v, number_of(numbers, v), buf, next);
    }
    next
}
