// The matrix file and the policy file, read and written.

#![tactic(auto)]

ghost use Rattle.std.specs.Prelude.{◌≡◌, length, MatchResult};
ghost use Rattle.model.specs.declared.Fault.TheVariants.{FileForm};
ghost use Rattle.model.specs.Policy.{policy};
ghost use Rattle.model.specs.Refusal.{refusal};
ghost use Rattle.layout.specs.Text.{matrix_text, policy_text};
ghost use Rattle.writable.specs.Rules.{matrix_write_rules, policy_write_rules};
ghost use Rattle.files.specs.Read.{read_matrix_told, read_policy_told, MatrixRead, PolicyRead};
ghost use Rattle.files.specs.Write.{wrote_told, Written};

use model::{Fault, Refusal};
use places::{MatrixSizes, PolicySizes};

// What was read, or the refusal of a malformed file.
fn formed<T>(read: Result<T, usize>) -> Result<T, Refusal>
    ensures { MatchResult read (λ x. result ≡ Ok x) (λ p. result ≡ Err (refusal FileForm p)) }
{
    read.map_err(|place| scan::refuse(Fault::FileForm, place))
}

// ---- the matrix file

// The numbers n and k of the file's matrix; the first n·k·n bytes of `matrix` become its cells, later bytes stay.
// Refused in this order, before anything is written: 12; 11.
pub fn read_matrix(file: &[u8], matrix: &mut [u8]) -> Result<MatrixSizes, Refusal>
    ensures { MatrixRead file.now matrix.old (read_matrix_told result) matrix.new }
{
    let sizes = formed(places::read_matrix(file))?;
    let MatrixSizes { n, k } = sizes;
    scan::room_fits(Fault::Room, matrix.len(), n * (k * n))?;
    fills::fill_records(file, 6, k * n, n, matrix);
    Ok(sizes)
}

// The length of the matrix's file; the first bytes of `file` become that file, later bytes stay.
// Refused in this order, before anything is written: 1; 2; 3; 11.
pub fn write_matrix(n: usize, k: usize, matrix: &[u8], file: &mut [u8]) -> Result<usize, Refusal>
    ensures { Written (matrix_write_rules n k matrix.now (length file.old)) (matrix_text n k matrix.now)
        file.old (wrote_told result) file.new }
{
    writable::matrix_fits(n, k, matrix, file.len())?;
    Ok(texts::put_matrix(n, k, matrix, file))
}

// ---- the policy file

// The numbers n, k and d of the file's policy; the first n bytes of `assignment` and the first d·k·d of `table` become the policy's, later
// bytes stay. Refused in this order, before anything is written: 12; 10; 11.
pub fn read_policy(
    file: &[u8],
    assignment: &mut [u8],
    table: &mut [u8],
) -> Result<PolicySizes, Refusal>
    ensures { PolicyRead file.now assignment.old table.old (read_policy_told result) assignment.new table.new }
{
    let sizes = formed(places::read_policy(file))?;
    let PolicySizes { n, k, d } = sizes;
    scan::room_fits(Fault::AssignmentRoom, assignment.len(), n)?;
    scan::room_fits(Fault::Room, table.len(), d * (k * d))?;
    fills::fill_numbers(file, 10, n, assignment);
    fills::fill_records(file, 11 + n * 2, k * d, d, table);
    Ok(sizes)
}

// The length of the policy's file; the first bytes of `file` become that file, later bytes stay.
// Refused in this order, before anything is written: 1; 5; 6; 7; 8; 11.
pub fn write_policy(
    n: usize,
    k: usize,
    d: usize,
    assignment: &[u8],
    table: &[u8],
    file: &mut [u8],
) -> Result<usize, Refusal>
    ensures { Written (policy_write_rules n k (policy d assignment.now table.now) (length file.old))
        (policy_text n k (policy d assignment.now table.now)) file.old (wrote_told result) file.new }
{
    let p = writable::policy_fits(n, k, d, assignment, table, file.len())?;
    Ok(texts::put_policy(&p, file))
}
