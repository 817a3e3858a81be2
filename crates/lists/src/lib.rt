// The tests of the lists that a call is lent, in groups that each call joins in its own order; `scan` makes their refusals.

#![tactic(auto)]

ghost use Rattle.std.specs.Prelude.{◌≡◌, ◌*◌, ◌≤◌, leb, IfOk};
ghost use Rattle.model.specs.Laid.{finding};
ghost use Rattle.model.specs.Refusal.{cell_refusal, checked};
ghost use Rattle.model.specs.Rules.{list_rules, matrix_rules, full_rules, whole_rules, assignment_rules, table_rules};

use model::{Fault, Matrix, Refusal};

// Refusal `short` for a list that is not x·k·y cells long, and `stray` for its lowest cell that is `from` or more.
#[tactic(auto, using(model::proofs::Rules::listed))]
fn cells_fit(
    short: Fault,
    stray: Fault,
    x: usize,
    k: usize,
    y: usize,
    from: usize,
    s: &[u8],
) -> Result<(), Refusal>
    requires { (x ≤ 64) × (k ≤ 8) × (y ≤ 64) }
    ensures { result ≡ checked (list_rules short (x * k * y) (leb from) s.now (cell_refusal stray k y)) }
{
    if s.len() != x * k * y {
        return Err(scan::refuse(short, 0));
    }
    match lowest::lowest_from(s, from) {
        Some(i) => Err(scan::refuse_cell(stray, k, y, i)),
        None => Ok(()),
    }
}

// 2: the matrix's length; 3: a cell above 2.
#[tactic(auto, unfolding(model::specs::Rules::matrix_rules))]
pub fn matrix_fits(n: usize, k: usize, m: &[u8]) -> Result<(), Refusal>
    requires { (n ≤ 64) × (k ≤ 8) }
    ensures { result ≡ checked (matrix_rules n k m.now) }
{
    cells_fit(Fault::MatrixLength, Fault::MatrixCell, n, k, n, 3, m)
}

// 4: an unlogged cell, of a matrix that has passed 2 and 3.
#[tactic(auto, using(model::proofs::Rules::listed), unfolding(model::specs::Rules::full_rules))]
pub fn full_fits(n: usize, k: usize, m: &[u8]) -> Result<(), Refusal>
    requires { checked (matrix_rules n k m.now) ≡ Ok tt }
    ensures { result ≡ checked (full_rules n k m.now) }
{
    match lowest::lowest_from(m, 2) {
        Some(i) => Err(scan::refuse_cell(Fault::Unlogged, k, n, i)),
        None => Ok(()),
    }
}

// 1 to 4: a full matrix within the limits.
#[tactic(auto, using(model::proofs::Rules::decided), unfolding(model::specs::Rules::whole_rules))]
pub fn whole<'a>(n: usize, k: usize, m: &'a [u8]) -> Result<Matrix<'a>, Refusal>
    ensures refusals { finding result ≡ checked (whole_rules n k m.now) }
    ensures matrix { IfOk result (λ x. (x.n ≡ n) × (x.k ≡ k) × (x.cells.now ≡ m.now)) }
{
    scan::sizes(n, k, 0)?;
    matrix_fits(n, k, m)?;
    full_fits(n, k, m)?;
    Ok(Matrix { n, k, cells: m })
}

// 5: the assignment's length; 6: a domain number not below d.
#[tactic(auto, using(model::proofs::Rules::listed), unfolding(model::specs::Rules::assignment_rules))]
pub fn assignment_fits(n: usize, d: usize, s: &[u8]) -> Result<(), Refusal>
    ensures { result ≡ checked (assignment_rules n d s.now) }
{
    if s.len() != n {
        return Err(scan::refuse(Fault::AssignmentLength, 0));
    }
    match lowest::lowest_from(s, d) {
        Some(i) => Err(scan::refuse(Fault::DomainNumber, i)),
        None => Ok(()),
    }
}

// 7: the table's length; 8: a cell above 1.
#[tactic(auto, unfolding(model::specs::Rules::table_rules))]
pub fn table_fits(k: usize, d: usize, t: &[u8]) -> Result<(), Refusal>
    requires { (k ≤ 8) × (d ≤ 64) }
    ensures { result ≡ checked (table_rules k d t.now) }
{
    cells_fit(Fault::TableLength, Fault::TableCell, d, k, d, 2, t)
}
