// The parents of each type as a set, out of the draft: bit b is the type at place b in name order.
#![tactic(auto)]

ghost use Rattle.std.specs.Prelude.{◌&&◌, not, ◌≡◌, eqb};
ghost use Rattle.order_parents.specs.Parents.{KeysOf, Prepared, ParentsOf, ParentsPut};

use catalogue::Catalogue;
use sheet_draft::Draft;
use sheet_order::ByName;

// A set of parents; and whether each name that was listed for it is that of a declared type, and not `self`. The set has the
// declared parents also where some name is not.
#[derive(Clone, Copy)]
pub struct Found {
    pub set: u64,
    pub whole: bool,
}

// Whether a listed parent is declared, and not `self`. `named` has the type of that name, if there is one.
fn is_known(named: u64, key: u64, own: u64) -> bool
    ensures { result ≡ (not (eqb named 0) && not (eqb key own)) }
{
    named != 0 && key != own
}

// The parents of the type in a row of the draft; `own` is the key of the name `self`.
fn parents_of(t: &Catalogue, d: &Draft, row: usize, own: u64) -> Found
    requires { KeysOf d.now row }
    ensures { ParentsOf t.now d.now row own result }
{
    let mut set: u64 = 0;
    let mut whole = true;
    for k in 0..d.parent_count(row) {
        let key = d.parent(row, k);
        let named = t.type_of(key);
        set |= named;
        whole &= is_known(named, key, own);
    }
    Found { set, whole }
}

// The parents of each type into the catalogue. The answer has the types that are a parent, and whether each listed parent is
// declared, and none is `self`: without that there is no order (FORMAT 3.2).
pub fn put_parents(t: &mut Catalogue, x: ByName, own: u64) -> Found
    requires prepared { Prepared x.draft.now x.entries.now x.read.count }
    ensures { ParentsPut x.entry.draft.now x.entry.entries.now own x.entry.read.count t.old t.new result }
{
    let mut set: u64 = 0;
    let mut whole = true;
    for a in 0..x.read.count {
        let found = parents_of(t, x.draft, x.entries[a].row, own);
        t.parents[a] = found.set;
        set |= found.set;
        whole &= found.whole;
    }
    Found { set, whole }
}
