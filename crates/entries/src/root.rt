// A root for the host: module 4 on a pack that is well-formed, in an area with room for the words of its nodes.
ghost use Rattle.std.specs.Prelude.{◌≡◌, ◌*◌, ◌<◌, ◌≤◌, length};
ghost use Rattle.formed.specs.Formed.{formed_of};
ghost use Rattle.entries.specs.Answers.{told, result as with_area};
ghost use Rattle.entries.specs.Root.{checked, checked_in, root_checked, root_of};

use crate::answers::tell;
use crate::ready::ready_to_check;
use expr::check_root;
use laws::Refusal;
use names::{NameIndex, fill_names};
use pack::Counts;
use structure::number_rows;
use unionfind::UnionFind;
use words::Notes;

// A root of a well-formed pack, its rows numbered by structure and its names put in order first.
fn check_numbered(pack: &[u8], c: Counts, root: u32, area: &mut [u8]) -> Result<(), Refusal>
    requires { (formed_of pack.now ≡ Ok c) × (root < c.roots) × (4 * c.expressions ≤ length area.old) }
    ensures { checked result area.new ≡ checked_in pack.now c root area.old }
{
    let table = number_rows(pack, c);
    let same = table.same;
    let marks = table.marks;
    let mut index = NameIndex::empty();
    fill_names(pack, c, &mut index.table);
    let mut cells = UnionFind::empty().cells;
    let mut notes = Notes::empty().notes;
    check_root(
        pack,
        c,
        &index.table,
        &same,
        &marks,
        &mut cells,
        &mut notes,
        root,
        area,
    )
}

fn check_one(pack: &[u8], root: u64, area: &mut [u8]) -> Result<(), Refusal>
    ensures { checked result area.new ≡ root_checked pack.now root area.old }
{
    let c = ready_to_check(pack, root, area.len())?;
    check_numbered(pack, c, root as u32, area)
}

pub fn rulepack_root(
    pack: &[u8],
    root: u64,
    area: &mut [u8],
    place: &mut u32,
    detail: &mut u64,
) -> u32
    ensures { with_area (told result place.new detail.new) area.new ≡ root_of pack.now root area.old }
{
    let answer = check_one(pack, root, area);
    tell(answer, place, detail)
}
