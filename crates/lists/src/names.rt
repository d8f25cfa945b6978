// Refusal 14: names that repeat; references that do not rise. Both are asked only of lists in range, since 11 comes first.
ghost use Rattle.std.specs.Prelude.{◌≡◌, true};
ghost use Rattle.pack.specs.Lists.{list_len};
ghost use Rattle.lists.specs.Lists.{list_fits};
ghost use Rattle.lists.specs.Names.{names_differ, items_rise, Named};
ghost use Rattle.lists.specs.Peaks.{Peaks as PeaksOf};

use crate::forms::Form;
use crate::lists::list_fits;
use crate::peaks::{Peaks, items_below};
use pack::{Counts, list_len};

// Whether no name of the pairs at s repeats: each stood last before the first of them.
pub fn names_differ(pack: &[u8], c: Counts, s: u32, peaks: &[u16; Peaks::CAPACITY]) -> bool
    requires { PeaksOf pack.now c peaks.now }
    ensures { Named pack.now c s → result ≡ names_differ pack.now c s }
{
    let n = list_len(pack, c, s);
    if list_fits(c, s, 2 * n) {
        items_below(pack, c, Form::Name, s + 1, n, s + 1, peaks)
    } else {
        true
    }
}

// Whether each item of the list at s is below the next.
pub fn items_rise(pack: &[u8], c: Counts, s: u32, peaks: &[u16; Peaks::CAPACITY]) -> bool
    requires { PeaksOf pack.now c peaks.now }
    ensures { list_fits c s (list_len pack.now c s) ≡ true → result ≡ items_rise pack.now c s }
{
    let n = list_len(pack, c, s);
    if list_fits(c, s, n) {
        items_below(
            pack,
            c,
            Form::Reference,
            s + 1,
            n.saturating_sub(1),
            1,
            peaks,
        )
    } else {
        true
    }
}
