// The tests before a write: whether a matrix or a policy may be written to a buffer of `room` bytes.

#![tactic(auto)]

ghost use Rattle.std.specs.Prelude.{◌≡◌, IfOk};
ghost use Rattle.model.specs.Laid.{finding, granting};
ghost use Rattle.model.specs.Policy.{policy};
ghost use Rattle.model.specs.Refusal.{checked};
ghost use Rattle.writable.specs.Rules.{matrix_write_rules, policy_write_rules};

use model::{Fault, Policy, Refusal};

// 1, 2 and 3: a matrix within the limits; 11: room for its file.
#[tactic(auto, using(crate::proofs::Rules::fits), unfolding(crate::specs::Rules::matrix_write_rules))]
pub fn matrix_fits(n: usize, k: usize, matrix: &[u8], room: usize) -> Result<(), Refusal>
    ensures { result ≡ checked (matrix_write_rules n k matrix.now room) }
{
    scan::sizes(n, k, 0)?;
    lists::matrix_fits(n, k, matrix)?;
    scan::room_fits(Fault::Room, room, 9 + n * (k * n + 5))
}

// 1 and 5 to 8: a policy within the limits; 11: room for its file.
#[tactic(auto, using(crate::proofs::Rules::fits), unfolding(crate::specs::Rules::policy_write_rules))]
pub fn policy_fits<'a>(
    n: usize,
    k: usize,
    d: usize,
    assignment: &'a [u8],
    table: &'a [u8],
    room: usize,
) -> Result<Policy<'a>, Refusal>
    ensures refusals { finding result ≡ checked (policy_write_rules n k (policy d assignment.now table.now) room) }
    ensures policy { IfOk result (λ p. (p.n ≡ n) × (p.k ≡ k) × (granting p ≡ policy d assignment.now table.now)) }
{
    scan::sizes(n, k, d)?;
    lists::assignment_fits(n, d, assignment)?;
    lists::table_fits(k, d, table)?;
    scan::room_fits(Fault::Room, room, 14 + n * 2 + d * (k * d + 5))?;
    Ok(Policy {
        n,
        k,
        domains: d,
        assignment,
        table,
    })
}
