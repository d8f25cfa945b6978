// One tree over the items of all lists: a node is the larger of the two below it.
// A range of items is judged by the few nodes that cover it, so many rows over one list, or over lists that overlap, cost little.
ghost use Rattle.std.specs.Prelude.{◌≡◌, ◌+◌, ◌*◌, ◌≤◌, ◌<◌, ltb, length, get_or, replicate};
ghost use Rattle.laws.specs.First.{all};
ghost use Rattle.lists.specs.Forms.{stride};
ghost use Rattle.lists.specs.Peaks.{weight as weight_of, region as region_of, leaves as leaves_of, lane as lane_of, spot as spot_of, place as place_of, leaf, edges_below, Right, Tips, Nodes, Peaks as PeaksOf};

use crate::forms::Form;
use crate::tables::Tables;
use pack::Counts;

#[derive(Drop)]
pub struct Peaks {
    pub cells: [u16; Peaks::CAPACITY],
}

impl Peaks {
    // Two for each of six forms and each list word, and some for lanes that are not full.
    pub const CAPACITY: usize = 98304;

    pub fn empty() -> Self
        ensures { result.cells ≡ replicate 98304 0 }
    {
        Peaks {
            cells: [0; Peaks::CAPACITY],
        }
    }
}

// How many leaves a form has.
pub fn region(c: Counts) -> u32
    requires { c.words ≤ 8184 }
    ensures { result ≡ region_of c }
{
    let groups = c.words / 4;
    4 * (groups + 1)
}

// The leaf of the item that starts at word j.
fn spot(c: Counts, form: Form, j: u32) -> u32
    requires { (c.words ≤ 8184) × (j < 65536) }
    ensures { result ≡ spot_of c form j }
{
    let all = region(c);
    let by = form.stride();
    let lane = all / by;
    all * form.number() + (lane * (j % by) + j / by)
}

// The word where the item of a form's leaf y starts.
fn place(c: Counts, form: Form, y: u32) -> u32
    requires { (c.words ≤ 8184) × (y < region_of c) }
    ensures { result ≡ place_of c form y }
{
    let by = form.stride();
    let lane = region(c) / by;
    by * (y % lane) + y / lane
}

// What stands in leaf x.
fn leaf_at(pack: &[u8], c: Counts, x: u32, tables: &Tables) -> u16
    requires { Right pack.now c tables.now }
    ensures { result ≡ leaf pack.now c x }
{
    let all = region(c);
    let form = Form::at(x / all);
    let j = place(c, form, x % all);
    tables.weight(pack, c, form, j)
}

// Fills the leaves.
fn fill_leaves(pack: &[u8], c: Counts, tables: &Tables, cells: &mut [u16; Peaks::CAPACITY])
    requires { Right pack.now c tables.now }
    ensures { Tips pack.now c (leaves_of c) cells.new }
{
    let n = Form::COUNT * region(c);
    for x in 0..n {
        cells[(n + x) as usize] = leaf_at(pack, c, x, tables);
    }
}

// Fills the nodes, from the last down.
fn fill_nodes(pack: &[u8], c: Counts, cells: &mut [u16; Peaks::CAPACITY])
    requires { (c.words ≤ 8184) × Tips pack.now c (leaves_of c) cells.old }
    ensures { PeaksOf pack.now c cells.new }
{
    for y in (1..Form::COUNT * region(c)).rev() {
        let at = y as usize;
        cells[at] = cells[2 * at].max(cells[2 * at + 1]);
    }
}

pub fn fill_peaks(pack: &[u8], c: Counts, tables: &Tables, cells: &mut [u16; Peaks::CAPACITY])
    requires { Right pack.now c tables.now }
    ensures { PeaksOf pack.now c cells.new }
{
    fill_leaves(pack, c, tables, cells);
    fill_nodes(pack, c, cells);
}

// Of the range from l to r: whether each end that is not under one node with its neighbour is below the limit.
fn edges_below(cells: &[u16; Peaks::CAPACITY], l: u32, r: u32, limit: u32) -> bool
    requires { (l < r) × (r < 98305) }
    ensures { result ≡ edges_below cells.now l r limit }
{
    let low = l as usize;
    let high = (r - 1) as usize;
    let first = u32::from(cells[low]);
    let last = u32::from(cells[high]);
    (l % 2 == 0 || first < limit) && (r % 2 == 0 || last < limit)
}

// Whether each of n leaves is below the limit. What lies between the ends of a range is judged by the nodes above it.
fn range_below(c: Counts, cells: &[u16; Peaks::CAPACITY], from: u32, n: u32, limit: u32) -> bool
    requires { (c.words ≤ 8184) × Nodes (leaves_of c) 1 cells.now × (from + n ≤ leaves_of c) }
    ensures { result ≡ all (λ x. ltb (get_or cells.now x 0) limit) (leaves_of c + from) (leaves_of c + from + n) }
{
    let mut l = Form::COUNT * region(c) + from;
    let mut r = l + n;
    while l < r {
        let fit = edges_below(cells, l, r, limit);
        if !fit {
            return false;
        }
        l = (l + 1) / 2;
        r = r / 2;
    }
    true
}

// Whether n items of a form, the first at word j, weigh less than the limit.
pub fn items_below(
    pack: &[u8],
    c: Counts,
    form: Form,
    j: u32,
    n: u32,
    limit: u32,
    peaks: &[u16; Peaks::CAPACITY],
) -> bool
    requires { PeaksOf pack.now c peaks.now × (j + stride form * n ≤ c.words + 1) }
    ensures { result ≡ all (λ k. ltb (weight_of pack.now c form (j + stride form * k)) limit) 0 n }
{
    let from = spot(c, form, j);
    range_below(c, peaks, from, n, limit)
}
