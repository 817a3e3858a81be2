// The answer to an input, put down: the file of its matrix's policy, or the line of a refusal.

#![tactic(auto)]

ghost use Rattle.std.specs.Prelude.{◌≡◌, ◌≤◌, length};
ghost use Rattle.model.specs.Matrix.{Holds};
ghost use Rattle.model.specs.Refusal.{over};
ghost use Rattle.woven.specs.Weave.{answer_text, longest, Wove};

use model::Policy;
use places::MatrixSizes;

// The answer to a matrix that is within the limits, and its length. The policy is built in the two buffers that are lent.
fn put_answer(
    n: usize,
    k: usize,
    matrix: &[u8],
    assignment: &mut [u8],
    table: &mut [u8],
    output: &mut [u8],
) -> usize
    requires holds { Holds n k 3 matrix.now }
    requires in_bounds { (64 ≤ length assignment.old) × (32768 ≤ length table.old) × (longest ≤ length output.old) }
    ensures value { result ≡ length (answer_text n k matrix.now) }
    ensures output_after { output.new ≡ over (answer_text n k matrix.now) output.old }
{
    match build::build(n, k, matrix, assignment, table) {
        Ok(d) => {
            let p = Policy {
                n,
                k,
                domains: d,
                assignment: &assignment[..n],
                table: &table[..d * k * d],
            };
            texts::put_policy(&p, output)
        }
        Err(r) => refusals::put_refusal(r, output),
    }
}

// The answer to an input, and its length.
pub fn weave(input: &[u8], output: &mut [u8]) -> usize
    requires { longest ≤ length output.old }
    ensures { Wove input.now output.old result output.new }
{
    let mut matrix: [u8; 32768] = [0; 32768];
    let mut assignment: [u8; 64] = [0; 64];
    let mut table: [u8; 32768] = [0; 32768];
    weave_in(input, &mut matrix, &mut assignment, &mut table, output)
}

// The same, with the matrix read into the first of the three buffers that are lent, and the policy built in the two others.
fn weave_in(
    input: &[u8],
    matrix: &mut [u8],
    assignment: &mut [u8],
    table: &mut [u8],
    output: &mut [u8],
) -> usize
    requires { (32768 ≤ length matrix.old) × (64 ≤ length assignment.old) × (32768 ≤ length table.old) × (longest ≤ length output.old) }
    ensures { Wove input.now output.old result output.new }
{
    match files::read_matrix(input, matrix) {
        Ok(sizes) => {
            let MatrixSizes { n, k } = sizes;
            put_answer(n, k, &matrix[..n * k * n], assignment, table, output)
        }
        Err(r) => refusals::put_refusal(r, output),
    }
}
