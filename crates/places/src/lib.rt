// The two files as they are read: the sizes that a file's first line says, or the place where it stops being such a file.

#![tactic(auto)]

ghost use Rattle.std.specs.Prelude.{◌≡◌, cond, ◌+◌, ◌*◌, ◌≤◌, eqb, length, IfOk, IfErr};
ghost use Rattle.layout.specs.Layout.{reach, number_at, digit_at, matrix_layout, policy_layout, policy_sizes, assigned};
ghost use Rattle.readers.specs.Pieces.{Reads, stopped};

use readers::Reader;

// The numbers of entities and of rights.
#[derive(Clone, Copy, Debug, PartialEq, Eq)]
pub struct MatrixSizes {
    pub n: usize,
    pub k: usize,
}

// The numbers of entities, of rights and of domains.
#[derive(Clone, Copy, Debug, PartialEq, Eq)]
pub struct PolicySizes {
    pub n: usize,
    pub k: usize,
    pub d: usize,
}

// The sizes of the matrix whose file this is, or the place where the file stops being that of a matrix.
pub fn read_matrix(file: &[u8]) -> Result<MatrixSizes, usize>
    ensures place { stopped (length file.now) result ≡ reach matrix_layout file.now }
    ensures fault { IfErr result (λ p. p ≤ length file.now) }
    ensures sizes { IfOk result (λ z. (z.n ≡ number_at file.now 2) × (z.k ≡ digit_at file.now 4)) }
{
    let mut reader = Reader::new(file);
    let (n, k) = records::read_sizes(&mut reader, b"MX")?;
    reader.text(b"\n")?;
    records::read_records(&mut reader, b"RW", 3, k * n, n)?;
    records::read_close(&mut reader)?;
    Ok(MatrixSizes { n, k })
}

// The sizes of the policy whose file this is, or the place where the file stops being that of a policy.
pub fn read_policy(file: &[u8]) -> Result<PolicySizes, usize>
    ensures place { stopped (length file.now) result ≡ reach policy_layout file.now }
    ensures fault { IfErr result (λ p. p ≤ length file.now) }
    ensures sizes { IfOk result (λ z. (z.n ≡ number_at file.now 2) × (z.k ≡ digit_at file.now 4) × (z.d ≡ number_at file.now 5)) }
{
    let mut reader = Reader::new(file);
    let sizes = read_head(&mut reader)?;
    read_assigned(&mut reader, sizes.d, sizes.n)?;
    records::read_records(&mut reader, b"TB", 2, sizes.k * sizes.d, sizes.d)?;
    records::read_close(&mut reader)?;
    Ok(sizes)
}

// The first line: where there are entities there is a domain.
fn read_head(reader: &mut Reader) -> Result<PolicySizes, usize>
    ensures file { reader.new.file.now ≡ reader.old.file.now }
    ensures read { Reads reader.old reader.new 8 policy_sizes (λ z F. F z.n z.k z.d) result }
    ensures stands { IfErr result (λ p. reader.new.at ≡ p) }
    ensures entities { IfOk result (λ z. (z.n ≡ number_at reader.old.file.now (reader.old.at + 2)) × (z.n ≤ 64)) }
    ensures rights { IfOk result (λ z. (z.k ≡ digit_at reader.old.file.now (reader.old.at + 4)) × (z.k ≤ 8)) }
    ensures domains { IfOk result (λ z. (z.d ≡ number_at reader.old.file.now (reader.old.at + 5)) × (z.d ≤ 64)) }
{
    let (n, k) = records::read_sizes(reader, b"PD")?;
    let d = reader.number(least_domains(n), 65)?;
    reader.text(b"\n")?;
    Ok(PolicySizes { n, k, d })
}

// The fewest domains that n entities can have.
fn least_domains(n: usize) -> usize
    ensures { result ≡ cond (eqb n 0) 0 1 }
{
    if n == 0 { 0 } else { 1 }
}

// The second line, of n domain numbers below d.
fn read_assigned(reader: &mut Reader, d: usize, n: usize) -> Result<(), usize>
    ensures file { reader.new.file.now ≡ reader.old.file.now }
    ensures read { Reads reader.old reader.new (n * 2 + 3) (assigned d n) (λ _ F. F) result }
    ensures stands { IfErr result (λ p. reader.new.at ≡ p) }
{
    reader.text(b"AS")?;
    reader.numbers(d, n)?;
    reader.text(b"\n")
}
