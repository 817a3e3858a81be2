// Whether two entities are alike: the call, from its refusals to the answer of the test.

#![tactic(auto)]

ghost use Rattle.alike.specs.Compare.{Compares};

use model::Refusal;

// Whether u and v are alike in a full matrix. Refused in this order: 1; 2; 3; 4; 9.
#[tactic(auto, using(model::proofs::Rules::decided), unfolding(crate::specs::Compare::alike_rules, crate::specs::Compare::alike_told))]
pub fn alike(n: usize, k: usize, u: usize, v: usize, matrix: &[u8]) -> Result<bool, Refusal>
    ensures { Compares n k u v matrix.now result }
{
    let m = lists::whole(n, k, matrix)?;
    scan::pair_fits(n, u, v)?;
    Ok(clauses::same(&m, u, v))
}
