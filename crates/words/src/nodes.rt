// The word of a node, its type resolved once the whole root is checked.
ghost use Rattle.std.specs.Prelude.{◌+◌, ◌*◌, ◌≤◌, length};
ghost use Rattle.unionfind.specs.Cells.{Knows, Live};
ghost use Rattle.words.specs.Notes.{code_noted};
ghost use Rattle.words.specs.Words.{Worded, NodeWritten};

use crate::area::write_word;
use crate::notes::{call_noted, code_noted, diverges_noted, is_seen};
use crate::word::encode;
use unify::resolve_type;
use unionfind::UnionFind;

// The word of a node with that note.
#[tactic(auto, unfolding(crate::specs::Words::word_of))]
fn word_of(cells: &mut [u32; UnionFind::CAPACITY], n: u32, note: u32) -> u32
    requires { Live n cells.old × Knows n (code_noted note) }
    ensures { Worded n cells.old note result cells.new }
{
    let code = code_noted(note);
    let found = resolve_type(cells, n, code);
    encode(diverges_noted(note), call_noted(note), found)
}

// The word of one node, where it was seen.
pub fn write_node(
    cells: &mut [u32; UnionFind::CAPACITY],
    n: u32,
    note: u32,
    id: u32,
    area: &mut [u8],
)
    requires { Live n cells.old × (Knows n (code_noted note) × (4 * id + 4 ≤ length area.old)) }
    ensures { NodeWritten n cells.old note id area.old cells.new area.new }
{
    if is_seen(note) {
        let word = word_of(cells, n, note);
        write_word(area, id, word);
    }
}
