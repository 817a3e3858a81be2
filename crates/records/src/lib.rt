// The pieces of a file that are made of others, read: the records, the sizes, the last line.

#![tactic(auto)]

ghost use Rattle.std.specs.Prelude.{◌≡◌, ◌+◌, ◌*◌, ◌≤◌, ◌<◌, length, IfOk, IfErr};
ghost use Rattle.layout.specs.Layout.{digit_at, number_at, record_of, records, sizes, close};
ghost use Rattle.readers.specs.Pieces.{Reads, ahead, stopped};

use readers::Reader;

// Record u: a mark, u, w cells below lim, a line feed.
pub fn read_record(
    reader: &mut Reader,
    mark: &[u8; 2],
    lim: u8,
    w: usize,
    u: usize,
) -> Result<(), usize>
    requires { u < 100 }
    ensures file { reader.new.file.now ≡ reader.old.file.now }
    ensures read { Reads reader.old reader.new (w + 5) (record_of mark.now lim w u) (λ _ F. F) result }
    ensures stands { IfErr result (λ p. reader.new.at ≡ p) }
{
    reader.text(mark)?;
    reader.number(u, u + 1)?;
    reader.cells(lim, w)?;
    reader.text(b"\n")
}

// c records of w cells below lim each.
pub fn read_records(
    reader: &mut Reader,
    mark: &[u8; 2],
    lim: u8,
    w: usize,
    c: usize,
) -> Result<(), usize>
    requires { c ≤ 64 }
    ensures file { reader.new.file.now ≡ reader.old.file.now }
    ensures read { Reads reader.old reader.new (c * (w + 5)) (records mark.now lim w c) (λ _ F. F) result }
    ensures stands { IfErr result (λ p. reader.new.at ≡ p) }
{
    for u in 0..c {
        read_record(reader, mark, lim, w, u)?;
    }
    Ok(())
}

// A mark, the number of entities, that of rights.
pub fn read_sizes(reader: &mut Reader, mark: &[u8; 2]) -> Result<(usize, usize), usize>
    ensures file { reader.new.file.now ≡ reader.old.file.now }
    ensures read { Reads reader.old reader.new 5 (sizes mark.now) (λ z F. F z.0 z.1) result }
    ensures stands { IfErr result (λ p. reader.new.at ≡ p) }
    ensures entities { IfOk result (λ z. (z.0 ≡ number_at reader.old.file.now (reader.old.at + 2)) × (z.0 ≤ 64)) }
    ensures rights { IfOk result (λ z. (z.1 ≡ digit_at reader.old.file.now (reader.old.at + 4)) × (0 < z.1) × (z.1 ≤ 8)) }
{
    reader.text(mark)?;
    let n = reader.number(0, 65)?;
    let k = reader.digit(1, 9)?;
    Ok((n, k))
}

// The last line, with nothing behind it.
pub fn read_close(reader: &mut Reader) -> Result<(), usize>
    ensures place { stopped (length reader.old.file.now) result ≡ ahead reader.old close }
    ensures fault { IfErr result (λ p. p ≤ length reader.old.file.now) }
    ensures file { reader.new.file.now ≡ reader.old.file.now }
    ensures stands { IfErr result (λ p. reader.new.at ≡ p) }
    ensures ended { IfOk result (λ _. (reader.new.at ≡ reader.old.at + 3) × (reader.new.at ≡ length reader.old.file.now)) }
{
    reader.text(b"ZZ")?;
    reader.text(b"\n")?;
    if reader.at < reader.file.len() {
        Err(reader.at)
    } else {
        Ok(())
    }
}
