// The five tables of a pack, as document 01 numbers them.
ghost use Rattle.std.specs.Prelude.{◌≡◌};
ghost use Rattle.rows.specs.Tables.{rows_in, table_number};

use pack::Counts;

#[derive(Clone, Copy)]
pub enum Table {
    Types = 0,
    Definitions = 1,
    Expressions = 2,
    Roots = 3,
    Values = 4,
}

impl Table {
    pub fn number(self) -> u32
        ensures { result ≡ table_number self }
    {
        self as u32
    }

    // How many rows it has.
    pub fn len(self, c: Counts) -> u32
        ensures { result ≡ rows_in c (table_number self) }
    {
        match self {
            Table::Types => c.types,
            Table::Definitions => c.definitions,
            Table::Expressions => c.expressions,
            Table::Roots => c.roots,
            Table::Values => c.values,
        }
    }
}
