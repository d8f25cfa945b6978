// What was found of row i's list, stored in the tree of its sort.
ghost use Rattle.std.specs.Prelude.{◌≡◌, ◌<◌, ◌+◌};
ghost use Rattle.structure.specs.Structure.{rows};
ghost use Rattle.structure.specs.Tree.{roots_with, cells_with, Sound, Storable, Grown};

use crate::finding::Found;
use crate::tree::ListTrees;

impl ListTrees {
    // A link to row i where its list is the first of its sort or makes a fork.
    fn link(&mut self, i: u32, sort: u32, found: Found)
        requires { (i < rows) × Storable found i }
        ensures { self.new ≡ record self.old { roots = roots_with found self.old.roots sort i; cells = cells_with found self.old.cells i } }
    {
        match found {
            Found::Root => {
                self.roots[(sort % 16384) as usize] = (i + 1) as u16;
            }
            Found::Fork { cell, .. } => {
                self.cells[cell as usize] = (i + 1) as u16;
            }
            _ => {}
        }
    }

    pub fn grow(&mut self, i: u32, sort: u32, found: Found)
        requires { (i < rows) × Sound self.old i × Storable found i }
        ensures { Grown self.old i sort found self.new × Sound self.new (i + 1) }
    {
        self.link(i, sort, found);
        self.members.put(i, found.key());
        self.tests[i as usize] = found.test();
    }
}
