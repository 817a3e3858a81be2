// Two entities tested by the clauses of Definition 2.11 in their order, as the alike call is asked to; `lines` has the same promise, for the build.
// A sender's row is read where it stands in the matrix.

#![tactic(auto)]

ghost use Rattle.std.specs.Prelude.{◌≡◌, ◌+◌, ◌*◌, ◌≤◌, ◌<◌, length};
ghost use Rattle.model.specs.Below.{all};
ghost use Rattle.model.specs.Laid.{alike};
ghost use Rattle.clauses.specs.Clauses.{own_all_test, sends_test, sends_all_test, treats_test, treats_all_test};

use model::Matrix;

// The test itself: the pair's own four cells, then the others'. The rows of u and v are compared where they stand.
pub fn same(m: &Matrix, u: usize, v: usize) -> bool
    requires { (u < m.now.n) × (v < m.now.n) }
    ensures { result ≡ alike m.now u v }
{
    let row = m.k * m.n;
    let i = u * row;
    let j = v * row;
    let r = &m.cells[i..i + row];
    let s = &m.cells[j..j + row];
    own_same(m.n, m.k, u, v, r, s) && sends_same(m.n, m.k, u, v, r, s) && receives_same(m, u, v)
}

// Clause 1: the pair's own four cells, in the rows of u and v.
fn own_same(n: usize, k: usize, u: usize, v: usize, r: &[u8], s: &[u8]) -> bool
    requires pair_within_limits { (n ≤ 64) × (k ≤ 8) × (u < n) × (v < n) }
    requires row_lengths { (length r.now ≡ k * n) × (length s.now ≡ k * n) }
    ensures { result ≡ own_all_test n k r.now s.now u v }
{
    (0..k).all(|a| {
        let i = a * n + u;
        let j = a * n + v;
        r[i] == r[j] && r[j] == s[i] && s[i] == s[j]
    })
}

// Clause 2, sending: the rows of u and v, with u and v passed over.
fn sends_same(n: usize, k: usize, u: usize, v: usize, r: &[u8], s: &[u8]) -> bool
    requires { (n ≤ 64) × (k ≤ 8) × (length r.now ≡ k * n) × (length s.now ≡ k * n) }
    ensures { result ≡ sends_all_test n k r.now s.now u v }
{
    (0..k).all(|a| line_same(n, u, v, a, r, s))
}

// For right a: the cells for each receiver but u and v.
fn line_same(n: usize, u: usize, v: usize, a: usize, r: &[u8], s: &[u8]) -> bool
    requires { (n ≤ 64) × (a < 8) × (a * n + n ≤ length r.now) × (a * n + n ≤ length s.now) }
    ensures { result ≡ all n (sends_test n r.now s.now u v a) }
{
    (0..n).all(|x| x == u || x == v || r[a * n + x] == s[a * n + x])
}

// Clause 2, receiving: every sender's row, where it stands.
fn receives_same(m: &Matrix, u: usize, v: usize) -> bool
    requires { (u < m.now.n) × (v < m.now.n) }
    ensures { result ≡ treats_all_test m.now.n m.now.k m.now.cells.now u v }
{
    let row = m.k * m.n;
    (0..m.n).all(|x| {
        let i = x * row;
        treats_same(m.n, m.k, u, v, x, &m.cells[i..i + row])
    })
}

// Whether the sender x of row t is one of the two, or treats them the same.
fn treats_same(n: usize, k: usize, u: usize, v: usize, x: usize, t: &[u8]) -> bool
    requires { (n ≤ 64) × (k ≤ 8) × (u < n) × (v < n) × (length t.now ≡ k * n) }
    ensures { result ≡ treats_test n k t.now u v x }
{
    x == u || x == v || (0..k).all(|a| t[a * n + u] == t[a * n + v])
}
