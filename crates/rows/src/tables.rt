// The five tables in their order, row by row: the first fault, or the counts.
ghost use Rattle.std.specs.Prelude.{◌≡◌, true, ◌≤◌};
ghost use Rattle.pack.specs.Counts.{in_limits};
ghost use Rattle.lists.specs.Peaks.{Peaks as PeaksOf, never};
ghost use Rattle.rows.specs.Tables.{table_number, row_rule, table_of, rows_of};

use crate::definitions::definition_rule;
use crate::expressions::expression_rule;
use crate::roots::root_rule;
use crate::table::Table;
use crate::types::type_rule;
use crate::values::value_rule;
use laws::{Fault, Refusal};
use lists::{Peaks, fill_tree};
use pack::Counts;

// The first fault of row i of a table, if it has one.
#[tactic(auto, unfolding(crate::specs::Tables::row_rule, laws::specs::Choice::by_kind))]
fn row_rule(
    pack: &[u8],
    c: Counts,
    table: Table,
    i: u32,
    peaks: &[u16; Peaks::CAPACITY],
) -> Option<Fault>
    requires { PeaksOf pack.now c peaks.now × (i ≤ never) }
    ensures { result ≡ row_rule pack.now c (table_number table) i }
{
    match table {
        Table::Types => type_rule(pack, c, i, peaks),
        Table::Definitions => definition_rule(pack, c, i, peaks),
        Table::Expressions => expression_rule(pack, c, i, peaks),
        Table::Roots => root_rule(pack, c, i, peaks),
        Table::Values => value_rule(pack, c, i, peaks),
    }
}

// One table.
fn table_rows(
    pack: &[u8],
    c: Counts,
    table: Table,
    peaks: &[u16; Peaks::CAPACITY],
) -> Result<Counts, Refusal>
    requires { PeaksOf pack.now c peaks.now × (in_limits c ≡ true) }
    ensures { result ≡ table_of pack.now c (table_number table) }
{
    for i in 0..table.len(c) {
        if let Some(fault) = row_rule(pack, c, table, i, peaks) {
            return Err(Refusal {
                fault: fault,
                place: i,
                detail: u64::from(table.number()),
            });
        }
    }
    Ok(c)
}

// All tables, the first that does not pass being the answer.
fn all_tables(pack: &[u8], c: Counts, peaks: &[u16; Peaks::CAPACITY]) -> Result<Counts, Refusal>
    requires { PeaksOf pack.now c peaks.now × (in_limits c ≡ true) }
    ensures { result ≡ rows_of pack.now c }
{
    table_rows(pack, c, Table::Types, peaks)?;
    table_rows(pack, c, Table::Definitions, peaks)?;
    table_rows(pack, c, Table::Expressions, peaks)?;
    table_rows(pack, c, Table::Roots, peaks)?;
    table_rows(pack, c, Table::Values, peaks)?;
    Ok(c)
}

// The counts of a pack whose rows have no fault, or the first refusal.
pub fn rows(pack: &[u8], c: Counts) -> Result<Counts, Refusal>
    requires { in_limits c ≡ true }
    ensures { result ≡ rows_of pack.now c }
{
    let mut peaks = Peaks::empty();
    fill_tree(pack, c, &mut peaks.cells);
    all_tables(pack, c, &peaks.cells)
}
