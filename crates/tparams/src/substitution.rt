// TParamSubst: a type for each parameter id.
// Changed from the source that NOTICE names: ported to Rattle.

ghost use Rattle.std.specs.Prelude.{◌≡◌, ◌-◌, ◌≤◌};
ghost use Rattle.definition.specs.TParams.{arg_of};
ghost use Rattle.tparams.specs.Pairs.{pairs};

use names::TParamID;

// The first `many` ids, each with its argument. In two arrays: contracts speak of `args` as of any parts (table's Parts). Not fields' Pairs,
// where an id may stand twice: make_tparam_subst is what refuses that.
#[derive(Clone, Copy)]
pub struct TParamSubst {
    pub ids: [TParamID; 8],
    pub args: [u32; 8],
    pub many: u32,
    ghost few: { many ≤ 8 },
}

impl TParamSubst {
    // The argument of an id, from place i on.
    pub(crate) fn get_from(&self, i: u32, id: TParamID) -> Option<u32>
        requires { i ≤ self.now.many }
        ensures { result ≡ arg_of (pairs self.now.ids self.now.args i (self.now.many - i)) id.0 }
    {
        (i..self.many)
            .find(|k| self.ids[*k as usize] == id)
            .map(|k| self.args[k as usize])
    }

    // subst.get(id)
    pub fn get(&self, id: TParamID) -> Option<u32>
        ensures { result ≡ arg_of (pairs self.now.ids self.now.args 0 self.now.many) id.0 }
    {
        self.get_from(0, id)
    }
}
