// The operations of a script one after the other, from no variable on.
ghost use Rattle.std.specs.Prelude.{◌≡◌, length};
ghost use Rattle.laws.specs.Bounded.{put};
ghost use Rattle.unionfind.specs.Cells.{Live};
ghost use Rattle.cells_abi.specs.Script.{number_at, step_of, Told, replay_of};

use crate::operations::operate;
use unionfind::UnionFind;

// The number at i of a script, 0 past its end.
fn number_at(script: &[u32], i: usize) -> u32
    ensures { result ≡ number_at script.now i }
{
    script.get(i).copied().unwrap_or(0)
}

// Writes the number x at i, if there is room.
fn put_number(answers: &mut [u32], i: usize, x: u32)
    ensures { answers.new ≡ put (length answers.old) answers.old i x }
{
    if i < answers.len() {
        answers[i] = x;
    }
}

// Operation i of the script; how many variables are in use after it.
fn step(
    script: &[u32],
    i: u32,
    cells: &mut [u32; UnionFind::CAPACITY],
    n: u32,
    answers: &mut [u32],
) -> u32
    requires { Live n cells.old }
    ensures { Told (step_of script.now i n cells.old) i answers.old result cells.new answers.new }
{
    let at = 3 * (i as usize);
    let op = number_at(script, at);
    let v = number_at(script, at + 1);
    let x = number_at(script, at + 2);
    let s = operate(cells, n, op, v, x);
    let to = 2 * (i as usize);
    put_number(answers, to, s.answer);
    put_number(answers, to + 1, s.place);
    s.len
}

// Runs so many operations, three numbers each; each leaves two numbers among the answers, if there is room.
pub fn cells_replay(script: &[u32], ops: u32, answers: &mut [u32])
    ensures { answers.new ≡ replay_of script.now ops answers.old }
{
    let u = UnionFind::empty();
    let mut cells = u.cells;
    let mut n = u.len;
    for i in 0..ops {
        n = step(script, i, &mut cells, n, answers);
    }
}
