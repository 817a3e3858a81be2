// The boundary to C: each call over plain numbers and byte slices, answered by one word (include/soroluzko.h). A crate is an archive or a
// library, and not both: what stands here calls `soroluzko`, and promises the same.

#![tactic(auto)]

ghost use Rattle.std.specs.Prelude.{◌≡◌, length};
ghost use Rattle.model.specs.Policy.{policy};
ghost use Rattle.layout.specs.Text.{matrix_text, policy_text};
ghost use Rattle.writable.specs.Rules.{matrix_write_rules, policy_write_rules};
ghost use Rattle.build.specs.Build.{assignment_left, table_left};
ghost use Rattle.words.specs.Calls.{ask_word, alike_word, build_word, judge_word};
ghost use Rattle.filewords.specs.Files.{MatrixReadWord, PolicyReadWord, WrittenWord};
ghost use Rattle.filewords.specs.Weave.{WeaveWord};

// The ask, for C: `ask::ask` with its answer as a word.
#[unsafe(no_mangle)]
pub extern "C" fn soroluzko_ask(
    n: usize,
    k: usize,
    d: usize,
    u: usize,
    a: usize,
    v: usize,
    assignment: &[u8],
    table: &[u8],
) -> u64
    ensures { result ≡ ask_word n k u a v (policy d assignment.now table.now) }
{
    soroluzko::soroluzko_ask(n, k, d, u, a, v, assignment, table)
}

// Alike, for C: `alike::alike` with its answer as a word.
#[unsafe(no_mangle)]
pub extern "C" fn soroluzko_alike(n: usize, k: usize, u: usize, v: usize, matrix: &[u8]) -> u64
    ensures { result ≡ alike_word n k u v matrix.now }
{
    soroluzko::soroluzko_alike(n, k, u, v, matrix)
}

// The build, for C: `build::build` with its answer as a word.
#[unsafe(no_mangle)]
pub extern "C" fn soroluzko_build(
    n: usize,
    k: usize,
    matrix: &[u8],
    assignment: &mut [u8],
    table: &mut [u8],
) -> u64
    ensures value { result ≡ build_word n k matrix.now (length assignment.old) (length table.old) }
    ensures assignment_after { assignment.new ≡ assignment_left n k matrix.now assignment.old table.old }
    ensures table_after { table.new ≡ table_left n k matrix.now assignment.old table.old }
{
    soroluzko::soroluzko_build(n, k, matrix, assignment, table)
}

// The judge, for C: `judge::judge` with its answer as a word.
#[unsafe(no_mangle)]
pub extern "C" fn soroluzko_judge(
    n: usize,
    k: usize,
    d: usize,
    matrix: &[u8],
    assignment: &[u8],
    table: &[u8],
) -> u64
    ensures { result ≡ judge_word n k matrix.now (policy d assignment.now table.now) }
{
    soroluzko::soroluzko_judge(n, k, d, matrix, assignment, table)
}

// Reading a matrix file, for C: `files::read_matrix` with its answer as a word.
#[unsafe(no_mangle)]
pub extern "C" fn soroluzko_read_matrix(file: &[u8], matrix: &mut [u8]) -> u64
    ensures { MatrixReadWord file.now matrix.old result matrix.new }
{
    soroluzko::soroluzko_read_matrix(file, matrix)
}

// Reading a policy file, for C: `files::read_policy` with its answer as a word.
#[unsafe(no_mangle)]
pub extern "C" fn soroluzko_read_policy(file: &[u8], assignment: &mut [u8], table: &mut [u8]) -> u64
    ensures { PolicyReadWord file.now assignment.old table.old result assignment.new table.new }
{
    soroluzko::soroluzko_read_policy(file, assignment, table)
}

// Writing a matrix file, for C: `files::write_matrix` with its answer as a word.
#[unsafe(no_mangle)]
pub extern "C" fn soroluzko_write_matrix(n: usize, k: usize, matrix: &[u8], file: &mut [u8]) -> u64
    ensures { WrittenWord (matrix_write_rules n k matrix.now (length file.old)) (matrix_text n k matrix.now)
        file.old result file.new }
{
    soroluzko::soroluzko_write_matrix(n, k, matrix, file)
}

// Writing a policy file, for C: `files::write_policy` with its answer as a word.
#[unsafe(no_mangle)]
pub extern "C" fn soroluzko_write_policy(
    n: usize,
    k: usize,
    d: usize,
    assignment: &[u8],
    table: &[u8],
    file: &mut [u8],
) -> u64
    ensures { WrittenWord (policy_write_rules n k (policy d assignment.now table.now) (length file.old))
        (policy_text n k (policy d assignment.now table.now)) file.old result file.new }
{
    soroluzko::soroluzko_write_policy(n, k, d, assignment, table, file)
}

// The weave, for C: `weave_bytes` with its answer as a word.
#[unsafe(no_mangle)]
pub extern "C" fn soroluzko_weave(input: &[u8], output: &mut [u8]) -> u64
    ensures { WeaveWord input.now output.old result output.new }
{
    soroluzko::soroluzko_weave(input, output)
}
