// A whole input to a whole output, for the program; and what the boundary to C hands on (`soroluzko_c`): each call over plain numbers and byte
// slices, answered by one word (include/soroluzko.h).

#![tactic(auto)]

ghost use Rattle.std.specs.Prelude.{◌≡◌, length};
ghost use Rattle.model.specs.Policy.{policy};
ghost use Rattle.layout.specs.Text.{matrix_text, policy_text};
ghost use Rattle.writable.specs.Rules.{matrix_write_rules, policy_write_rules};
ghost use Rattle.build.specs.Build.{assignment_left, table_left};
ghost use Rattle.woven.specs.Weave.{Weaves};
ghost use Rattle.words.specs.Calls.{ask_word, alike_word, build_word, judge_word};
ghost use Rattle.filewords.specs.Files.{MatrixReadWord, PolicyReadWord, WrittenWord};
ghost use Rattle.filewords.specs.Weave.{WeaveWord};

use model::{Fault, Refusal};

// The length of the answer to an input; the first bytes of `output` become the answer, later bytes stay: the file of the built policy where
// the input is the file of a full matrix, and else the line NO with the number and the place. Refused, before anything is written: 11 where
// `output` has less than 33,230 bytes, which are enough for every answer.
pub fn weave_bytes(input: &[u8], output: &mut [u8]) -> Result<usize, Refusal>
    ensures { Weaves input.now output.old result output.new }
{
    scan::room_fits(Fault::Room, output.len(), 33230)?;
    Ok(loom::weave(input, output))
}

// The ask, for C: `ask::ask` with its answer as a word.
pub fn soroluzko_ask(
    n: usize,
    k: usize,
    d: usize,
    u: usize,
    a: usize,
    v: usize,
    assignment: &[u8],
    table: &[u8],
) -> u64
    ensures { result ≡ ask_word n k u a v (policy d assignment.now table.now) }
{
    codes::flag_word(ask::ask(n, k, d, u, a, v, assignment, table))
}

// Alike, for C: `alike::alike` with its answer as a word.
pub fn soroluzko_alike(n: usize, k: usize, u: usize, v: usize, matrix: &[u8]) -> u64
    ensures { result ≡ alike_word n k u v matrix.now }
{
    codes::flag_word(alike::alike(n, k, u, v, matrix))
}

// The build, for C: `build::build` with its answer as a word.
pub fn soroluzko_build(
    n: usize,
    k: usize,
    matrix: &[u8],
    assignment: &mut [u8],
    table: &mut [u8],
) -> u64
    ensures value { result ≡ build_word n k matrix.now (length assignment.old) (length table.old) }
    ensures assignment_after { assignment.new ≡ assignment_left n k matrix.now assignment.old table.old }
    ensures table_after { table.new ≡ table_left n k matrix.now assignment.old table.old }
{
    word::size_word(build::build(n, k, matrix, assignment, table))
}

// The judge, for C: `judge::judge` with its answer as a word.
pub fn soroluzko_judge(
    n: usize,
    k: usize,
    d: usize,
    matrix: &[u8],
    assignment: &[u8],
    table: &[u8],
) -> u64
    ensures { result ≡ judge_word n k matrix.now (policy d assignment.now table.now) }
{
    codes::judged_word(judge::judge(n, k, d, matrix, assignment, table))
}

// Reading a matrix file, for C: `files::read_matrix` with its answer as a word.
pub fn soroluzko_read_matrix(file: &[u8], matrix: &mut [u8]) -> u64
    ensures { MatrixReadWord file.now matrix.old result matrix.new }
{
    filecodes::read_matrix_word(files::read_matrix(file, matrix))
}

// Reading a policy file, for C: `files::read_policy` with its answer as a word.
pub fn soroluzko_read_policy(file: &[u8], assignment: &mut [u8], table: &mut [u8]) -> u64
    ensures { PolicyReadWord file.now assignment.old table.old result assignment.new table.new }
{
    filecodes::read_policy_word(files::read_policy(file, assignment, table))
}

// Writing a matrix file, for C: `files::write_matrix` with its answer as a word.
pub fn soroluzko_write_matrix(n: usize, k: usize, matrix: &[u8], file: &mut [u8]) -> u64
    ensures { WrittenWord (matrix_write_rules n k matrix.now (length file.old)) (matrix_text n k matrix.now)
        file.old result file.new }
{
    word::size_word(files::write_matrix(n, k, matrix, file))
}

// Writing a policy file, for C: `files::write_policy` with its answer as a word.
pub fn soroluzko_write_policy(
    n: usize,
    k: usize,
    d: usize,
    assignment: &[u8],
    table: &[u8],
    file: &mut [u8],
) -> u64
    ensures { WrittenWord (policy_write_rules n k (policy d assignment.now table.now) (length file.old))
        (policy_text n k (policy d assignment.now table.now)) file.old result file.new }
{
    word::size_word(files::write_policy(n, k, d, assignment, table, file))
}

// The weave, for C: `weave_bytes` with its answer as a word.
pub fn soroluzko_weave(input: &[u8], output: &mut [u8]) -> u64
    ensures { WeaveWord input.now output.old result output.new }
{
    word::size_word(weave_bytes(input, output))
}
