// An offered policy judged against a full or partial matrix.

#![tactic(auto)]

ghost use Rattle.std.specs.Prelude.{◌≡◌};
ghost use Rattle.model.specs.Policy.{policy};
ghost use Rattle.model.specs.Refusal.{checked};
ghost use Rattle.judge.specs.Judge.{judge_rules, Judges};

use model::{Matrix, Policy, Refusal};

// What a policy is found to be: it enforces, with so many domains; or it conflicts at a cell, where that value is logged.
#[derive(Clone, Copy, Debug, PartialEq, Eq)]
pub enum Verdict {
    Enforces(usize),
    Conflict { cell: usize, logged: u8 },
}

// Enforces, with d, if the policy of d domains enforces every logged cell; else the first conflict in cell order, with the logged
// value. Refused in this order: 1; 2; 3; 5; 6; 7; 8.
#[tactic(auto, unfolding(crate::specs::Judge::judge_told))]
pub fn judge(
    n: usize,
    k: usize,
    d: usize,
    matrix: &[u8],
    assignment: &[u8],
    table: &[u8],
) -> Result<Verdict, Refusal>
    ensures { Judges n k matrix.now (policy d assignment.now table.now) result }
{
    judge_fits(n, k, d, matrix, assignment, table)?;
    let m = Matrix {
        n,
        k,
        cells: matrix,
    };
    let p = Policy {
        n,
        k,
        domains: d,
        assignment,
        table,
    };
    let Some(cell) = conflicts::first_conflict(&m, &p) else {
        return Ok(Verdict::Enforces(d));
    };
    let logged = matrix[cell];
    Ok(Verdict::Conflict { cell, logged })
}

#[tactic(auto, using(model::proofs::Rules::decided), unfolding(crate::specs::Judge::judge_rules))]
fn judge_fits(
    n: usize,
    k: usize,
    d: usize,
    matrix: &[u8],
    assignment: &[u8],
    table: &[u8],
) -> Result<(), Refusal>
    ensures { result ≡ checked (judge_rules n k matrix.now (policy d assignment.now table.now)) }
{
    scan::sizes(n, k, d)?;
    lists::matrix_fits(n, k, matrix)?;
    lists::assignment_fits(n, d, assignment)?;
    lists::table_fits(k, d, table)
}
