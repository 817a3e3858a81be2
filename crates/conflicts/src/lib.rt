// The search of a matrix for the first cell that a policy contradicts.

#![tactic(auto)]

ghost use Rattle.std.specs.Prelude.{◌≡◌, ◌*◌, ◌<◌, length, unwrap_or, IfSome};
ghost use Rattle.model.specs.Laid.{granting};
ghost use Rattle.model.specs.Clash.{clash_test};
ghost use Rattle.conflicts.specs.Conflict.{conflict};

use model::{Matrix, Policy};

// The first cell, in cell order, whose logged value the policy contradicts, or none. The first one ends the scan. Document 01 names the form: three
// loops, left by a label at that cell; `cell` counts through all three.
pub fn first_conflict(m: &Matrix, p: &Policy) -> Option<usize>
    requires { (p.now.n ≡ m.now.n) × (p.now.k ≡ m.now.k) }
    ensures first { unwrap_or result (m.now.n * m.now.k * m.now.n) ≡ conflict m.now.n m.now.k m.now.cells.now (granting p.now) }
    ensures inside { IfSome result (λ i. i < length m.now.cells.now) }
{
    let mut found = None;
    let mut cell = 0;
    'cells: for u in 0..m.n {
        let sends = p.assignment[u] as usize;
        for a in 0..m.k {
            let row = (sends * m.k + a) * p.domains;
            for v in 0..m.n {
                if contradicts(m.cells[cell], p.table[row + p.assignment[v] as usize]) {
                    found = Some(cell);
                    break 'cells;
                }
                cell += 1;
            }
        }
    }
    found
}

// Whether the policy's answer, 0 or 1, contradicts what is logged: a logged 0 or 1 that is not the answer differs from it by 1 bit for
// bit, and an unlogged 2 never does. One comparison, since no branch could be foreseen.
fn contradicts(logged: u8, answer: u8) -> bool
    requires { answer < 2 }
    ensures { result ≡ clash_test logged answer }
{
    logged ^ answer == 1
}
