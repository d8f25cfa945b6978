// The result area: the values' numbers as listed, 2 bytes each from byte 0 on, big-endian.
ghost use Rattle.std.specs.Prelude.{◌≡◌, take};
ghost use Rattle.value_cycle.specs.Area.{written, Writes};

use tarjan::Listing;

pub fn write_order(listing: &Listing, n: u32, area: &mut [u8])
    requires { Writes listing.now.values n area.old }
    ensures { area.new ≡ written (take n listing.now.values) area.old }
{
    for k in 0..n as usize {
        let v = listing.values[k];
        area[2 * k] = (v / 256) as u8;
        area[2 * k + 1] = (v % 256) as u8;
    }
}
