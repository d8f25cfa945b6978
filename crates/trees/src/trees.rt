// The walk over all rows: roots first, then expressions from the last down, so that a node's place is known before its children's.
ghost use Rattle.std.specs.Prelude.{◌≡◌, ◌≤◌};
ghost use Rattle.pack.specs.Named.{row_statements, row_operands};
ghost use Rattle.trees.specs.Nodes.{bodies_of};
ghost use Rattle.trees.specs.Notes.{told, note_all, note_row, below};
ghost use Rattle.trees.specs.Hops.{Hops as HopsOf, Noting};
ghost use Rattle.trees.specs.Trees.{Clean, Noted};

use crate::kids::Kids;
use crate::notes::Notes;
use pack::{Counts, ExpressionRow, NodeKind, expression_row, root_row};

// The depth below a place, counted up to 65, one past the deepest that is allowed.
fn depth_below(place: u8) -> u8
    ensures { result ≡ below place }
{
    (place / 2).min(64) + 1
}

impl Notes {
    // A block's statements.
    fn note_statements(&mut self, pack: &[u8], c: Counts, row: ExpressionRow, place: u8)
        requires { HopsOf pack.now c self.old.uses self.old.hops }
        ensures { Noting (told self.new) (note_all (row_statements pack.now c row) place (told self.old)) pack.now c self.new.hops }
    {
        if row.kind == NodeKind::Block as u32 {
            self.note_list(pack, c, Kids::Items, row.a, place);
        }
    }

    // A node's other children.
    fn note_operands(&mut self, pack: &[u8], c: Counts, row: ExpressionRow, place: u8)
        requires { HopsOf pack.now c self.old.uses self.old.hops }
        ensures { Noting (told self.new) (note_all (row_operands pack.now c row) place (told self.old)) pack.now c self.new.hops }
    {
        match NodeKind::try_from(row.kind) {
            Ok(NodeKind::Literal) => {}
            Ok(NodeKind::Slot) => {}
            Ok(NodeKind::Block) => {
                self.note_optional(row.b, place);
            }
            Ok(NodeKind::Let) => {
                self.note(row.b, place);
            }
            Ok(NodeKind::Match) => {
                self.note(row.a, place);
                self.note_list(pack, c, Kids::Arms, row.b, place);
            }
            Ok(NodeKind::Operator) => {
                self.note(row.a, place);
                self.note(row.b, place);
            }
            Ok(NodeKind::Record) => {
                self.note_list(pack, c, Kids::Seconds, row.b, place);
            }
            Ok(NodeKind::Field) => {
                self.note(row.a, place);
            }
            Ok(NodeKind::Return) => {
                self.note_optional(row.a, place);
            }
            Err(_) => {}
        }
    }

    // All children of a row, below a place.
    fn note_row(&mut self, pack: &[u8], c: Counts, row: ExpressionRow, place: u8)
        requires { HopsOf pack.now c self.old.uses self.old.hops }
        ensures { Noting (told self.new) (note_row pack.now c row place (told self.old)) pack.now c self.new.hops }
    {
        let depth = depth_below(place);
        self.note_statements(pack, c, row, 2 * depth + 1);
        self.note_operands(pack, c, row, 2 * depth);
    }

    // The bodies of all roots, at depth 1.
    fn note_bodies(&mut self, pack: &[u8], c: Counts)
        ensures noted { told self.new ≡ note_all (bodies_of pack.now c) 2 (told self.old) }
        ensures hops { self.new.hops ≡ self.old.hops }
    {
        for i in 0..c.roots {
            let root = root_row(pack, c, i);
            self.note(root.body, 2);
        }
    }

    // Everything that a pack names.
    pub fn note_pack(&mut self, pack: &[u8], c: Counts)
        requires { (c.expressions ≤ 4096) × Clean self.old }
        ensures { Noted pack.now c 0 (told self.new) }
    {
        self.note_bodies(pack, c);
        for i in (0..c.expressions).rev() {
            let place = self.places[i as usize];
            let row = expression_row(pack, c, i);
            self.note_row(pack, c, row, place);
        }
    }
}
