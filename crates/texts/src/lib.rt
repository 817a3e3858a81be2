// The two files as they are written: the text of a matrix or of a policy put down at the start of a buffer.

#![tactic(auto)]

ghost use Rattle.std.specs.Prelude.{◌≡◌, ◌++◌, ◌+◌, ◌*◌, ◌≤◌, length};
ghost use Rattle.model.specs.Matrix.{Holds};
ghost use Rattle.model.specs.Laid.{granting};
ghost use Rattle.model.specs.Policy.{domain_of};
ghost use Rattle.model.specs.Refusal.{over};
ghost use Rattle.layout.specs.Text.{PD, AS, each, one, two, line, matrix_text, policy_text};
ghost use Rattle.writers.specs.Writes.{HasRoom, Writes};

use model::Policy;
use writers::Writer;

// The file, and its length.
pub fn put_matrix(n: usize, k: usize, matrix: &[u8], file: &mut [u8]) -> usize
    requires holds { Holds n k 3 matrix.now }
    requires file_has_room { length (matrix_text n k matrix.now) ≤ length file.old }
    ensures value { result ≡ length (matrix_text n k matrix.now) }
    ensures file_after { file.new ≡ over (matrix_text n k matrix.now) file.old }
{
    let mut out = Writer::new(file);
    rows::put_sizes(&mut out, b"MX", n, k);
    out.put(b"\n");
    rows::put_records(&mut out, b"RW", n, k * n, matrix);
    rows::put_close(&mut out);
    out.at
}

// The file, and its length.
pub fn put_policy(p: &Policy, file: &mut [u8]) -> usize
    requires file_has_room { length (policy_text p.now.n p.now.k (granting p.now)) ≤ length file.old }
    ensures value { result ≡ length (policy_text p.now.n p.now.k (granting p.now)) }
    ensures file_after { file.new ≡ over (policy_text p.now.n p.now.k (granting p.now)) file.old }
{
    let mut out = Writer::new(file);
    put_head(&mut out, p);
    put_assigned(&mut out, p);
    rows::put_records(&mut out, b"TB", p.domains, p.k * p.domains, p.table);
    rows::put_close(&mut out);
    out.at
}

// The first line.
fn put_head(out: &mut Writer, p: &Policy)
    requires { HasRoom out.old 8 }
    ensures { Writes out.old out.new (line (PD ++ (two p.now.n ++ (one p.now.k ++ two p.now.domains)))) }
{
    rows::put_sizes(out, b"PD", p.n, p.k);
    out.put_number(p.domains);
    out.put(b"\n");
}

// The second line.
fn put_assigned(out: &mut Writer, p: &Policy)
    requires { HasRoom out.old (3 + p.now.n * 2) }
    ensures written { Writes out.old out.new (line (AS ++ each p.now.n (λ u. two (domain_of (granting p.now) u)))) }
    ensures ends { out.new.at ≡ out.old.at + (3 + p.now.n * 2) }
{
    out.put(b"AS");
    out.put_numbers(p.assignment);
    out.put(b"\n");
}
