// The classes of alike entities, numbered in order of their smallest members.

#![tactic(auto)]

ghost use Rattle.std.specs.Prelude.{◌≡◌, ◌++◌, ◌-◌, ◌<◌, replicate, unwrap_or, IfSome};
ghost use Rattle.model.specs.Below.{first, tab};
ghost use Rattle.model.specs.Laid.{alike};
ghost use Rattle.model.specs.Classes.{classes, class_of, member_of};
ghost use Rattle.classes.specs.Members.{nth, Members};

use model::Matrix;

// The classes of a matrix: the domain of each entity, and the smallest member of each of so many domains. Arrays with a count, since there is no heap.
#[derive(Clone, Copy)]
pub struct Classes<'a> {
    pub of: Matrix<'a>,
    pub domains: [u8; 64],
    pub members: [u8; 64],
    pub count: usize,
    ghost entities: { Members of.n count members },
}

// The classes of m, numbered from 0. The bytes after those in use are 0.
pub fn classify<'a>(m: &Matrix<'a>) -> Classes<'a>
    ensures matrix { result.of ≡ m.now }
    ensures count { result.count ≡ classes m.now.n (alike m.now) }
    ensures domains { result.domains ≡ tab m.now.n (class_of m.now.n (alike m.now)) ++ replicate (64 - m.now.n) 0 }
    ensures members { result.members ≡ tab result.count (member_of m.now.n (alike m.now)) ++ replicate (64 - result.count) 0 }
{
    let mut domains = [0; 64];
    let mut members = [0; 64];
    let mut count = 0;
    for u in 0..m.n {
        match find(m, count, u, &members) {
            Some(p) => domains[u] = p as u8,
            None => {
                domains[u] = count as u8;
                members[count] = u as u8;
                count += 1;
            }
        }
    }
    Classes {
        of: *m,
        domains,
        members,
        count,
    }
}

// The number of the first of the d members so far that is alike to u, or none.
fn find(m: &Matrix, d: usize, u: usize, members: &[u8]) -> Option<usize>
    requires members { Members m.now.n d members.now }
    requires u_lt_n { u < m.now.n }
    ensures first { unwrap_or result d ≡ first d (λ c. alike m.now u (nth members.now c)) }
    ensures inside { IfSome result (λ p. p < d) }
{
    members[..d]
        .iter()
        .position(|&v| lines::same(m, u, v as usize))
}
