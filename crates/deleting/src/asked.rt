// What a delete asks, its lists read.
ghost use Rattle.std.specs.Prelude.{◌≡◌};
ghost use Rattle.deleting.specs.Deletes.{asked};

use order::keys::keys_named;
use order::{Groups, Itsi, Numbers, Radios};

// The groups that a delete names, whether they go, and whether radios of them are deassigned: those listed, or all.
// Stays: remove and deassign are asked each for itself, and neither says whether radios are listed: those are an option.
#[derive(Clone, Copy)]
pub struct Asked {
    pub groups: Groups,
    pub remove: bool,
    pub deassign: bool,
    pub radios: Option<Radios>,
}

// The lists read, each once.
// Stays: asker, groups, deassign and radios apart, as they are handed over: form_fault judges them before what is read counts.
pub fn read(
    asker: Itsi,
    groups: Numbers,
    remove: bool,
    deassign: bool,
    radios: Option<Numbers>,
) -> Asked
    ensures { result ≡ asked asker groups remove deassign radios }
{
    Asked {
        groups: keys_named(asker, Some(groups)),
        remove,
        deassign,
        radios: radios.map(|list| keys_named(asker, Some(list))),
    }
}
