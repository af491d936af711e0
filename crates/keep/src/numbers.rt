// New numbers: of what stays, how many are below.

ghost use Rattle.std.specs.Prelude.{◌≡◌, ◌≤◌, length, get_or};
ghost use Rattle.keep.specs.Numbered.{Numbered, AllNumbered};

use crate::marks::Marks;

#[derive(Drop)]
pub struct Numbers {
    pub nodes: [u16; 2048],
    pub places: [u16; 4097],
    pub vars: [u16; 1024],
}

// Refused (must-fail/): numbers from 1 on (number_of_one_more).
fn number(stays: &[bool], numbers: &mut [u16])
    requires { (length numbers.old ≡ length stays.now) × (length stays.now ≤ 65535) }
    ensures { Numbered stays.now (length stays.now) numbers.new }
{
    let mut below: u16 = 0;
    for i in 0..stays.len() {
        numbers[i] = below;
        below += u16::from(stays[i]);
    }
}

pub fn number_all(m: &Marks, places: &[bool]) -> Numbers
    requires { (length m.now.nodes ≡ 2048) × ((length m.now.vars ≡ 1024) × (length places.now ≡ 4097)) }
    ensures { AllNumbered m.now places.now result }
{
    let mut new = Numbers {
        nodes: [0; 2048],
        places: [0; 4097],
        vars: [0; 1024],
    };
    number(&m.nodes, &mut new.nodes);
    number(places, &mut new.places);
    number(&m.vars, &mut new.vars);
    new
}

// The number that x gets; 0 past the last.
pub fn number_of(numbers: &[u16], x: u32) -> u16
    ensures { result ≡ get_or numbers.now x 0 }
{
    let at = table::wide(x);
    if at < numbers.len() { numbers[at] } else { 0 }
}
