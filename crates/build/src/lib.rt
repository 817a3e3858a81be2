// The policy of a full matrix: one domain for each class of alike entities.

#![tactic(auto)]

ghost use Rattle.std.specs.Prelude.{◌≡◌, [], ◌∷◌, ◌++◌, ◌*◌, ◌≤◌, length};
ghost use Rattle.model.specs.Below.{tab};
ghost use Rattle.model.specs.declared.Fault.TheVariants.{AssignmentRoom, Room};
ghost use Rattle.model.specs.Laid.{logged};
ghost use Rattle.model.specs.Built.{table_of};
ghost use Rattle.model.specs.Refusal.{checked, tell, held};
ghost use Rattle.model.specs.Rules.{whole_rules, room_rules};
ghost use Rattle.classes.specs.Members.{nth};
ghost use Rattle.build.specs.Build.{built_told, Builds};

use classes::Classes;
use model::{Fault, Refusal};

// The number d of domains; the first n bytes of the assignment and the first d·k·d of the table become the policy's, later bytes stay.
// Refused in this order, before anything is written: 1; 2; 3; 4; 10; 11.
pub fn build(
    n: usize,
    k: usize,
    matrix: &[u8],
    assignment: &mut [u8],
    table: &mut [u8],
) -> Result<usize, Refusal>
    ensures { Builds n k matrix.now assignment.old table.old result assignment.new table.new }
{
    let m = lists::whole(n, k, matrix)?;
    scan::room_fits(Fault::AssignmentRoom, assignment.len(), n)?;
    write(&classes::classify(&m), assignment, table)
}

// The last refusal, or both writes.
#[tactic(auto, using(model::proofs::Rules::decided))]
fn write(c: &Classes, assignment: &mut [u8], table: &mut [u8]) -> Result<usize, Refusal>
    requires { c.now.of.n ≤ length assignment.old }
    ensures result_value { built_told result
        ≡ tell (checked (room_rules Room (length table.old) (c.now.count * c.now.of.k * c.now.count))) (c.now.count ∷ []) }
    ensures assignment_after { assignment.new
        ≡ held (checked (room_rules Room (length table.old) (c.now.count * c.now.of.k * c.now.count)))
        (tab c.now.of.n (nth c.now.domains)) assignment.old }
    ensures table_after { table.new
        ≡ held (checked (room_rules Room (length table.old) (c.now.count * c.now.of.k * c.now.count)))
        (table_of c.now.count c.now.count c.now.of.k (logged c.now.of) (nth c.now.members) (nth c.now.members)) table.old }
{
    scan::room_fits(Fault::Room, table.len(), c.count * c.of.k * c.count)?;
    tables::put_assignment(c.of.n, &c.domains, assignment);
    tables::put_table(c, table);
    Ok(c.count)
}
