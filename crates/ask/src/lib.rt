// One request answered from a policy.

#![tactic(auto)]

ghost use Rattle.std.specs.Prelude.{◌≡◌, ◌*◌, ◌≤◌, ◌<◌, length};
ghost use Rattle.model.specs.Policy.{policy};
ghost use Rattle.model.specs.Refusal.{checked, tell};
ghost use Rattle.ask.specs.Ask.{look_rules, granted, asked_told, Answers};

use model::{Fault, Refusal};

// Whether the policy of d domains grants (u, a, v). Refused in this order: 1; 5; 7; 9; 6 for u; 6 for v; 8 for
// the one cell that is read.
#[tactic(auto, using(crate::proofs::Exits::exits), unfolding(crate::specs::Ask::ask_rules, crate::specs::Ask::ask_told))]
pub fn ask(
    n: usize,
    k: usize,
    d: usize,
    u: usize,
    a: usize,
    v: usize,
    assignment: &[u8],
    table: &[u8],
) -> Result<bool, Refusal>
    ensures { Answers n k u a v (policy d assignment.now table.now) result }
{
    scan::sizes(n, k, d)?;
    if assignment.len() != n {
        return Err(scan::refuse(Fault::AssignmentLength, 0));
    }
    if table.len() != d * k * d {
        return Err(scan::refuse(Fault::TableLength, 0));
    }
    scan::request_fits(n, k, u, a, v)?;
    look(k, d, u, a, v, assignment, table)
}

// The ask once sizes, lengths and request are in order: two domain numbers and one cell are read.
#[tactic(auto, unfolding(crate::specs::Ask::look_rules, model::specs::Policy::domain_of, model::specs::Policy::answer, model::specs::Matrix::cell))]
fn look(
    k: usize,
    d: usize,
    u: usize,
    a: usize,
    v: usize,
    assignment: &[u8],
    table: &[u8],
) -> Result<bool, Refusal>
    requires table_laid { (k ≤ 8) × (d ≤ 64) × (length table.now ≡ d * k * d) }
    requires request_in_range { (u < length assignment.now) × (a < k) × (v < length assignment.now) }
    ensures { asked_told result
        ≡ tell (checked (look_rules k u a v (policy d assignment.now table.now)))
        (granted k (policy d assignment.now table.now) u a v) }
{
    let p = assignment[u] as usize;
    if d <= p {
        return Err(scan::refuse(Fault::DomainNumber, u));
    }
    let q = assignment[v] as usize;
    if d <= q {
        return Err(scan::refuse(Fault::DomainNumber, v));
    }
    let i = scan::cell_at(d, k, d, p, a, q);
    let x = table[i];
    if 1 < x {
        return Err(scan::refuse_cell(Fault::TableCell, k, d, i));
    }
    Ok(x == 1)
}
