// The whole: header, rows, and the trees that expressions form; the first refusal, or the counts.
ghost use Rattle.std.specs.Prelude.{◌≡◌, true, ◌+◌, ◌<◌};
ghost use Rattle.pack.specs.Counts.{in_limits};
ghost use Rattle.laws.specs.Faults.{passes};
ghost use Rattle.rows.specs.Tables.{rows_of};
ghost use Rattle.trees.specs.Nodes.{node_fits, nodes_of};
ghost use Rattle.trees.specs.Notes.{told};
ghost use Rattle.trees.specs.Trees.{Ready};
ghost use Rattle.formed.specs.Formed.{body_of, formed_of, trees_of};

use laws::Refusal;
use pack::{Counts, NodeKind, expression_row, header};
use rows::rows;
use trees::{NodeTest, Notes};

const MAX_DEPTH: u8 = 64;

// Whether expression e passes the test.
fn node_fits(pack: &[u8], c: Counts, test: NodeTest, e: u32, notes: &Notes) -> bool
    requires { (e < c.expressions) × Ready pack.now c test (told notes.now) }
    ensures { result ≡ node_fits pack.now c test e }
{
    let at = e as usize;
    let used = notes.uses[at];
    let place = notes.places[at];
    let row = expression_row(pack, c, e);
    match test {
        NodeTest::UsedOnce => used == 1,
        NodeTest::LetStated => {
            if row.kind == NodeKind::Let as u32 {
                place % 2 == 1
            } else {
                true
            }
        }
        NodeTest::Shallow => place / 2 <= MAX_DEPTH,
    }
}

// The smallest expression that does not pass the test.
fn nodes(pack: &[u8], c: Counts, test: NodeTest, notes: &Notes) -> Result<Counts, Refusal>
    requires { Ready pack.now c test (told notes.now) }
    ensures { result ≡ nodes_of pack.now c test }
{
    let n = c.expressions;
    for e in 0..n {
        let fits = node_fits(pack, c, test, e, notes);
        if !fits {
            return Err(Refusal::at(test.fault(), e));
        }
    }
    Ok(c)
}

// 12, then 15, then 13, of a pack whose rows have no fault.
fn trees(pack: &[u8], c: Counts) -> Result<Counts, Refusal>
    requires { (in_limits c ≡ true) × (passes (rows_of pack.now c) ≡ true) }
    ensures { result ≡ trees_of pack.now c }
{
    let mut notes = Notes::empty();
    notes.note_pack(pack, c);
    nodes(pack, c, NodeTest::UsedOnce, &notes)?;
    nodes(pack, c, NodeTest::LetStated, &notes)?;
    nodes(pack, c, NodeTest::Shallow, &notes)
}

// What follows the header.
fn body(pack: &[u8], c: Counts) -> Result<Counts, Refusal>
    requires { in_limits c ≡ true }
    ensures { result ≡ body_of pack.now c }
{
    rows(pack, c)?;
    trees(pack, c)
}

// The counts of a well-formed pack, or the first refusal of 1 to 4 and 10 to 15.
pub fn formed(pack: &[u8]) -> Result<Counts, Refusal>
    ensures { result ≡ formed_of pack.now }
{
    let c = header(pack)?;
    body(pack, c)
}
