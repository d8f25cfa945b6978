// What the item that starts at word j weighs, in each form: it is in range below a limit exactly if it weighs less.
ghost use Rattle.std.specs.Prelude.{◌≡◌, ◌+◌, ◌≤◌, ◌<◌, ◌-◌, max};
ghost use Rattle.pack.specs.Lists.{list_word};
ghost use Rattle.lists.specs.Lists.{slots_fit};
ghost use Rattle.lists.specs.Peaks.{never, variant_weight, arm_weight, rise_weight, region, Right, weight as weight_of};

use crate::forms::Form;
use crate::limits::{NAMES, SLOTS, WILD};
use crate::runs::ids_fit;
use crate::tables::Tables;
use pack::{Counts, list_len};

// The weight of an item that is in no range: no limit that is asked is above it.
const NEVER: u16 = 65535;

// A list word is a weight.
fn word(pack: &[u8], c: Counts, j: u32) -> u16
    ensures { result ≡ list_word pack.now c j }
{
    list_len(pack, c, j) as u16
}

// The ids of an arm are its guard and its body.
fn arm_ids(pack: &[u8], c: Counts, j: u32) -> u16
    requires { j < 65536 }
    ensures { result ≡ max (list_word pack.now c (j + 2) - 1) (list_word pack.now c (j + 3)) }
{
    let guard = list_len(pack, c, j + 2).saturating_sub(1);
    (guard as u16).max(word(pack, c, j + 3))
}

fn rise_weight(pack: &[u8], c: Counts, j: u32) -> u16
    requires { j < 65536 }
    ensures { result ≡ rise_weight pack.now c j }
{
    if list_len(pack, c, j) < list_len(pack, c, j + 1) {
        0
    } else {
        NEVER
    }
}

impl Tables {
    fn slots_fit(&self, pack: &[u8], c: Counts, name: u32, stored: u32) -> bool
        requires { Right pack.now c self.now }
        ensures { result ≡ slots_fit pack.now c name stored }
    {
        if stored == 0 {
            true
        } else {
            name < WILD && ids_fit(pack, c, SLOTS, stored - 1, &self.slots)
        }
    }

    fn variant_weight(&self, pack: &[u8], c: Counts, j: u32) -> u16
        requires { (j < 65536) × Right pack.now c self.now }
        ensures { result ≡ variant_weight pack.now c j }
    {
        let name = list_len(pack, c, j);
        let start = list_len(pack, c, j + 1);
        if name < NAMES && ids_fit(pack, c, c.types, start, &self.fields) {
            0
        } else {
            NEVER
        }
    }

    fn arm_weight(&self, pack: &[u8], c: Counts, j: u32) -> u16
        requires { (j < 65536) × Right pack.now c self.now }
        ensures { result ≡ arm_weight pack.now c j }
    {
        let name = list_len(pack, c, j);
        let stored = list_len(pack, c, j + 1);
        let bound = self.slots_fit(pack, c, name, stored);
        let ids = arm_ids(pack, c, j);
        if name <= WILD && bound { ids } else { NEVER }
    }

    pub fn weight(&self, pack: &[u8], c: Counts, form: Form, j: u32) -> u16
        requires { (j < region c) × Right pack.now c self.now }
        ensures { result ≡ weight_of pack.now c form j }
    {
        match form {
            Form::Id => word(pack, c, j),
            Form::Word => word(pack, c, j),
            Form::Variant => self.variant_weight(pack, c, j),
            Form::Arm => self.arm_weight(pack, c, j),
            Form::Name => self.earlier[j as usize],
            Form::Reference => rise_weight(pack, c, j),
        }
    }
}
