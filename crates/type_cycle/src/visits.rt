// The search: from a type or a definition to all that it leads to, each met once.
ghost use Rattle.std.specs.Prelude.{◌≡◌, ◌<◌, [], ◌∷◌};
ghost use Rattle.pack.specs.Named.{field_types_of};
ghost use Rattle.type_cycle.specs.Graph.{at_name, row_ahead, item_types, list_types, Within, RowInside};
ghost use Rattle.type_cycle.specs.Search.{state, Can, Visited, Settled};

use crate::readers::{definition_of, item_of, length_of};
use crate::search::Search;
use crate::skips::{Listed, Skips};
use pack::{Counts, DefinitionKind, TypeKind, TypeRow, type_row};

impl Search {
    // A definition: its fields, once. It is listed when it is left.
    #[cycle(visits)]
    pub fn visit_name(&mut self, pack: &[u8], c: &Counts, d: u32)
        requires { (d < c.now.definitions) × Can pack.now c.now self.old.marks }
        ensures { Visited pack.now c.now (at_name d ∷ []) (state self.old) (state self.new) }
    {
        let at = Self::NAMES + (d as usize);
        if !self.marks[at] {
            self.marks[at] = true;
            self.visit_fields(pack, c, d);
            self.order.push(d);
        }
    }

    // The types of a definition's fields. Runtime and list definitions have none.
    #[cycle(visits)]
    #[tactic(auto, using(crate::proofs::VisitLaws::nothing), unfolding(pack::specs::Named::field_types_of, pack::specs::Named::fields_of, laws::specs::Choice::by_kind))]
    pub fn visit_fields(&mut self, pack: &[u8], c: &Counts, d: u32)
        requires { (d < c.now.definitions) × Can pack.now c.now self.old.marks }
        ensures { Visited pack.now c.now (field_types_of pack.now c.now d) (state self.old) (state self.new) }
    {
        let row = definition_of(pack, c, d);
        match DefinitionKind::try_from(row.kind) {
            Ok(DefinitionKind::Enum) => self.visit_list(pack, c, Listed::Variants, row.list),
            Ok(DefinitionKind::Record) => self.visit_list(pack, c, Listed::Fields, row.list),
            _ => {}
        }
    }

    // What the items of the list at s name, in their order.
    #[cycle(visits)]
    fn visit_list(&mut self, pack: &[u8], c: &Counts, items: Listed, s: u32)
        requires { Within c.now (list_types pack.now c.now items s) × Can pack.now c.now self.old.marks }
        ensures { Visited pack.now c.now (list_types pack.now c.now items s) (state self.old) (state self.new) }
    {
        let count = length_of(pack, c, s);
        let mut k = 0;
        while k < count {
            let skip = u32::from(self.skips.at(items, s, k));
            if skip == 0 {
                self.visit_item(pack, c, items, s, k);
                self.skips.set(items, s, k, 1);
                k += 1;
            } else {
                k = self.skips.pass(items, s, k, skip, count);
            }
        }
    }

    // What item k names. A type is visited from here alone, so that a record in a record takes one frame of the stack.
    #[cycle(visits)]
    fn visit_item(&mut self, pack: &[u8], c: &Counts, items: Listed, s: u32, k: u32)
        requires { (k < 65536) × Within c.now (item_types pack.now c.now items s k) × Can pack.now c.now self.old.marks }
        ensures { Visited pack.now c.now (item_types pack.now c.now items s k) (state self.old) (state self.new) }
    {
        let t = item_of(pack, c, s, items.word_in(k));
        if !items.is_variants() {
            self.visit(pack, c, t);
        } else if !self.skips.pass_all(pack, c, t) {
            self.visit_list(pack, c, Listed::Types, t);
        }
    }

    // A type, once.
    #[cycle(visits)]
    fn visit(&mut self, pack: &[u8], c: &Counts, t: u32)
        requires { (t < c.now.types) × Can pack.now c.now self.old.marks }
        ensures { Visited pack.now c.now (t ∷ []) (state self.old) (state self.new) }
    {
        let at = t as usize;
        if !self.marks[at] {
            self.marks[at] = true;
            let row = type_row(pack, t);
            self.visit_row(pack, c, row);
        }
    }

    // What a type's row leads to: a named type to its definition, a record to its parts, a variable to the mark that says so.
    #[cycle(visits)]
    #[tactic(auto, using(crate::proofs::VisitLaws::nothing), unfolding(crate::specs::Graph::row_ahead, laws::specs::Choice::by_kind))]
    fn visit_row(&mut self, pack: &[u8], c: &Counts, row: TypeRow)
        requires { RowInside pack.now c.now row × Can pack.now c.now self.old.marks }
        ensures { Visited pack.now c.now (row_ahead pack.now c.now row) (state self.old) (state self.new) }
    {
        match TypeKind::try_from(row.kind) {
            Ok(TypeKind::Named) => self.visit_name(pack, c, row.a),
            Ok(TypeKind::Record) => self.visit_list(pack, c, Listed::Fields, row.b),
            Ok(TypeKind::Var | TypeKind::IntVar | TypeKind::FloatVar | TypeKind::RecordVar) =>
                self.visit_variable(),
            _ => {}
        }
    }
}

impl Skips {
    // Whether all types of the list at s were visited before: then there is nothing to do.
    fn pass_all(&self, pack: &[u8], c: &Counts, s: u32) -> bool
        ensures { Settled pack.now c.now s self.now.cells result }
    {
        length_of(pack, c, s) <= u32::from(self.at(Listed::Types, s, 0))
    }
}
