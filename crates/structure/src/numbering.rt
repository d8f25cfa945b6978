// The table of structures: each row's number, the smallest row equal in structure, and whether it holds a variable.
// Rows are taken from the smallest up, so all that a row refers to is numbered when it is reached, and no row is looked into twice.
ghost use Rattle.std.specs.Prelude.{◌≡◌, ◌<◌};
ghost use Rattle.laws.specs.First.{all};
ghost use Rattle.laws.specs.Bounded.{Reads};
ghost use Rattle.pack.specs.Rows.{type_row};
ghost use Rattle.structure.specs.Structure.{rows};
ghost use Rattle.structure.specs.Lists.{slot_of, fits};
ghost use Rattle.structure.specs.Table.{code_at, Bounded, Numbers};
ghost use Rattle.structure.specs.Buckets.{Chained};
ghost use Rattle.structure.specs.Facts.{RowKept};

use crate::buckets::Chains;
use crate::compare::is_within;
use crate::facts::{KnownLists, ListFacts};
use crate::rows::{entry_or, key_at, mark_at};
use crate::slots::{slot_at, sort_at};
use crate::table::{TypeTable, entry_at};
use crate::words::Words;
use pack::Counts;

// How many rows there are, or as many as there is room for.
fn rows_of(c: Counts) -> u32
    ensures { Bounded c.types result }
{
    c.types.min(TypeTable::CAPACITY as u32)
}

// Whether the lists of all n rows lie in the words that there is room for: those of a well-formed pack do.
fn all_fit(pack: &[u8], c: Counts, n: u32) -> bool
    ensures { result ≡ all (λ k. fits pack.now c (slot_of (type_row pack.now k))) 0 n }
{
    for k in 0..n {
        if !fits_at(pack, c, slot_at(pack, k)) {
            return false;
        }
    }
    true
}

#[tactic(auto, unfolding(crate::specs::Lists::fits))]
fn fits_at(pack: &[u8], c: Counts, s: u32) -> bool
    ensures { result ≡ fits pack.now c s }
{
    let sort = sort_at(pack, c, s);
    sort == 0 || is_within(s, sort)
}

// Row i's number and mark, where l is known of its list.
fn keep_row(pack: &[u8], table: &mut TypeTable, keys: &mut Chains, i: u32, l: ListFacts)
    requires { (i < rows) × Chained keys.old i }
    ensures { RowKept pack.now table.old keys.old i l table.new keys.new }
{
    let key = key_at(pack, &table.same, i, l.number);
    let row = keys.row_with(i, key);
    let number = entry_or(&table.same, row, i);
    let mark = mark_at(pack, &table.marks, i, l.held);
    keys.put(i, key);
    table.same[i as usize] = number;
    table.marks[i as usize] = mark;
}

// What is known of type i, for the words that name it.
#[tactic(auto, unfolding(crate::specs::Table::code_at))]
fn code_at(table: &TypeTable, i: u32) -> u32
    ensures { Reads result (code_at table.now.same table.now.marks i) 65536 }
{
    2 * (entry_at(&table.same, i) % 16384) + entry_at(&table.marks, i) % 2
}

pub fn number_rows(pack: &[u8], c: Counts) -> TypeTable
    ensures { Numbers pack.now c result.same result.marks }
{
    let mut table = TypeTable::empty();
    let mut words = Words::empty();
    let mut lists = KnownLists::empty();
    let mut keys = Chains::empty();
    let n = rows_of(c);
    let fit = all_fit(pack, c, n);
    words.read(pack, c);
    for i in 0..n {
        let l = lists.keep(pack, c, &table, &words.look, fit, i);
        keep_row(pack, &mut table, &mut keys, i, l);
        words.note(i, code_at(&table, i));
    }
    table
}
