// Two entities compared by whole rows and whole columns: both are the same exactly if the two are alike (Observation 4.4 (2)). A
// sender's row is read where it stands in the matrix.

#![tactic(auto)]

ghost use Rattle.std.specs.Prelude.{◌≡◌, ℕ, true, false, ◌+◌, ◌*◌, ◌^◌, ◌≤◌, ◌<◌, length, MatchBool};
ghost use Rattle.model.specs.Laid.{alike};
ghost use Rattle.lines.specs.Lines.{same_test, columns_test};

use model::Matrix;

// Whether u and v are alike in a full matrix.
pub fn same(m: &Matrix, u: usize, v: usize) -> bool
    requires { (u < m.now.n) × (v < m.now.n) }
    ensures { result ≡ alike m.now u v }
{
    let row = m.k * m.n;
    let i = u * row;
    let j = v * row;
    same_row(&m.cells[i..i + row], &m.cells[j..j + row]) && same_columns(m, u, v)
}

// Whether two rows of one length are the same, by blocks of 64 cells: `==` takes longer on rows of 128 to 512 cells.
fn same_row(r: &[u8], s: &[u8]) -> bool
    requires { length r.now ≡ length s.now }
    ensures { result ≡ same_test (length r.now) r.now s.now }
{
    all_same::<64, _>(r.len(), |j| r[j] == s[j])
}

// Whether the columns of u and v are the same: in each sender's cells for each right, by four such lines at a time.
fn same_columns(m: &Matrix, u: usize, v: usize) -> bool
    requires { (u < m.now.n) × (v < m.now.n) }
    ensures { result ≡ columns_test (m.now.n * m.now.k) m.now.n m.now.cells.now u v }
{
    all_same::<4, _>(m.n * m.k, |j| m.cells[j * m.n + u] == m.cells[j * m.n + v])
}

// Whether `same` answers yes at each number below `count`: by blocks of so many, and then at those that are left over.
fn all_same<const BLOCK: usize, F: Fn(usize) -> bool>(count: usize, same: F) -> bool
    requires block_of_some { 0 < BLOCK }
    requires callable { (j : ℕ) → j < count → F.pre same j }
    ensures { MatchBool result ((j : ℕ) → j < count → F.post same j true) ((j : ℕ) × (j < count) × F.post same j false) }
{
    for b in 0..count / BLOCK {
        if !block_same(b * BLOCK, BLOCK, &same) {
            return false;
        }
    }
    let rest = count % BLOCK;
    block_same(count - rest, rest, &same)
}

// The same at `count` numbers from i on. There is no branch inside, so that the compiler takes many at a time where they stand side by side.
fn block_same<F: Fn(usize) -> bool>(i: usize, count: usize, same: F) -> bool
    requires fits { i + count < 2 ^ 64 }
    requires callable { (j : ℕ) → i ≤ j → j < i + count → F.pre same j }
    ensures { MatchBool result ((j : ℕ) → i ≤ j → j < i + count → F.post same j true) ((j : ℕ) × (i ≤ j) × (j < i + count) × F.post same j false) }
{
    let mut all = true;
    for j in 0..count {
        all = all & same(i + j);
    }
    all
}
