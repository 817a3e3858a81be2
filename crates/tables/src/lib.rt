// The two writes of a policy: the domain of each entity, and the table of the members' cells.

#![tactic(auto)]

ghost use Rattle.std.specs.Prelude.{◌≡◌, ◌++◌, ◌*◌, ◌≤◌, length, drop};
ghost use Rattle.model.specs.Below.{tab};
ghost use Rattle.model.specs.Laid.{logged};
ghost use Rattle.model.specs.Built.{table_of};
ghost use Rattle.classes.specs.Members.{nth};

use classes::Classes;

// The first n bytes of `domains` to the assignment.
#[tactic(auto, using(crate::proofs::Table::take_tab))]
pub fn put_assignment(n: usize, domains: &[u8], assignment: &mut [u8])
    requires { (n ≤ length domains.now) × (n ≤ length assignment.old) }
    ensures { assignment.new ≡ tab n (nth domains.now) ++ drop n assignment.old }
{
    assignment[..n].copy_from_slice(&domains[..n]);
}

// The table of the members' cells, in cell order. `to` counts through all three loops: as (p·k + a)·d + q it would be longer and no plainer.
pub fn put_table(c: &Classes, table: &mut [u8])
    requires { c.now.count * c.now.of.k * c.now.count ≤ length table.old }
    ensures { table.new
        ≡ table_of c.now.count c.now.count c.now.of.k (logged c.now.of) (nth c.now.members) (nth c.now.members)
        ++ drop (c.now.count * c.now.of.k * c.now.count) table.old }
{
    let m = c.of;
    let mut to = 0;
    let members = &c.members[..c.count];
    for p in members {
        for a in 0..m.k {
            let from = (*p as usize * m.k + a) * m.n;
            for q in members {
                table[to] = m.cells[from + *q as usize];
                to += 1;
            }
        }
    }
}
