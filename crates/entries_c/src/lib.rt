// The functions of `entries` as C calls them, and so the Rust host: each under its own name, with the library's clauses.
// A slice is a pointer and then a length.
#![tactic(auto)]

ghost use Rattle.std.specs.Prelude.{◌≡◌};
ghost use Rattle.entries.specs.Answers.{told, result as with_area};
ghost use Rattle.entries.specs.Order.{order_of};
ghost use Rattle.entries.specs.Root.{root_of};
ghost use Rattle.entries.specs.Types.{types_of};

#[unsafe(no_mangle)]
pub extern "C" fn rulepack_types(pack: &[u8], place: &mut u32, detail: &mut u64) -> u32
    ensures { told result place.new detail.new ≡ types_of pack.now }
{
    entries::rulepack_types(pack, place, detail)
}

#[unsafe(no_mangle)]
pub extern "C" fn rulepack_root(
    pack: &[u8],
    root: u64,
    area: &mut [u8],
    place: &mut u32,
    detail: &mut u64,
) -> u32
    ensures { with_area (told result place.new detail.new) area.new ≡ root_of pack.now root area.old }
{
    entries::rulepack_root(pack, root, area, place, detail)
}

#[unsafe(no_mangle)]
pub extern "C" fn rulepack_order(
    pack: &[u8],
    area: &mut [u8],
    place: &mut u32,
    detail: &mut u64,
) -> u32
    ensures { with_area (told result place.new detail.new) area.new ≡ order_of pack.now area.old }
{
    entries::rulepack_order(pack, area, place, detail)
}
