// The pieces of a file, read. A piece that is there is answered by its value, if it has one; else by the place of the first byte that does not fit,
// and the reader then stands there.

#![tactic(auto)]

ghost use Rattle.std.specs.Prelude.{◌≡◌, ◌+◌, ◌*◌, ◌≤◌, ◌<◌, ℕ, leb, length, get_or, slice_index, EachIndex};
ghost use Rattle.std.specs.Prelude.{IfErr, IfOk, MatchOption, MatchResult};
ghost use Rattle.model.specs.Below.{any};
ghost use Rattle.layout.specs.Layout.{digit_of, cell_of};

// The value of a digit, and 10 of any other byte, as the definition has it.
#[tactic(auto, unfolding(layout::specs::Layout::digit_of))]
pub fn digit_of(x: u8) -> usize
    ensures value { result ≡ digit_of x }
    ensures upper_bound { result ≤ 10 }
{
    match x {
        b'0'..=b'9' => x as usize - 48,
        _ => 10,
    }
}

// The value of a cell's character, and 3 of any other byte, as the definition has it: one comparison with a limit tells what does not fit.
#[tactic(auto, unfolding(layout::specs::Layout::cell_of))]
pub fn cell_of(x: u8) -> u8
    ensures { result ≡ cell_of x }
{
    if x == 48 {
        0
    } else if x == 49 {
        1
    } else if x == 42 {
        2
    } else {
        3
    }
}

// Whether some byte is no character of a cell below lim.
fn strays(s: &[u8], lim: u8) -> bool
    ensures { result ≡ any (length s.now) (λ i. leb lim (cell_of (get_or s.now i 0))) }
{
    lowest::some_passes(s, |x| lim <= cell_of(x))
}

// The first byte that is no character of a cell below lim. Only where there is one they are looked through one by one.
#[tactic(auto, using(crate::proofs::Exits::all_cells))]
fn stray(s: &[u8], lim: u8) -> Option<usize>
    ensures { MatchOption result (EachIndex s.now (λ k. cell_of (slice_index s.now k) < lim))
        (λ i. (i < length s.now) × (lim ≤ cell_of (slice_index s.now i)) × ((k : ℕ) → k < i → cell_of (slice_index s.now k) < lim)) }
{
    if strays(s, lim) {
        s.iter().position(|x| lim <= cell_of(*x))
    } else {
        None
    }
}

// A file that is being read, and the place where the next byte stands.
#[derive(Drop)]
pub struct Reader<'a> {
    pub file: &'a [u8],
    pub at: usize,
    ghost inside: { at ≤ length file.now },
}

impl<'a> Reader<'a> {
    ghost use Rattle.layout.specs.Layout.{text, digit, number, cells, numbers, digit_at, number_at};
    ghost use Rattle.readers.specs.Pieces.{Reads};

    // A file from its first byte on.
    pub fn new(file: &'a [u8]) -> Self
        ensures file { result.file.now ≡ file.now }
        ensures at { result.at ≡ 0 }
    {
        Reader { file, at: 0 }
    }

    // The next byte, or the place where the file ends.
    fn peek(&self) -> Result<u8, usize>
        ensures { MatchResult result (λ x. (self.now.at < length self.now.file.now) × (x ≡ get_or self.now.file.now self.now.at 0))
            (λ p. (p ≡ self.now.at) × (p ≡ length self.now.file.now)) }
    {
        self.file.get(self.at).copied().ok_or(self.at)
    }

    // The value of the next byte as a digit, or the place where the file ends.
    fn peek_digit(&self) -> Result<usize, usize>
        ensures { MatchResult result (λ x. (self.now.at < length self.now.file.now) × (x ≡ digit_at self.now.file.now self.now.at) × (x ≤ 10))
            (λ p. (p ≡ self.now.at) × (p ≡ length self.now.file.now)) }
    {
        Ok(digit_of(self.peek()?))
    }

    // These bytes.
    pub fn text(&mut self, mark: &[u8]) -> Result<(), usize>
        ensures file { self.new.file.now ≡ self.old.file.now }
        ensures read { Reads self.old self.new (length mark.now) (text mark.now) (λ _ F. F) result }
        ensures stands { IfErr result (λ p. self.new.at ≡ p) }
    {
        for x in mark {
            if self.peek()? != *x {
                return Err(self.at);
            }
            self.at += 1;
        }
        Ok(())
    }

    // A digit from lo on and below hi.
    pub fn digit(&mut self, lo: usize, hi: usize) -> Result<usize, usize>
        ensures file { self.new.file.now ≡ self.old.file.now }
        ensures read { Reads self.old self.new 1 (digit lo hi) (λ x F. F x) result }
        ensures stands { IfErr result (λ p. self.new.at ≡ p) }
        ensures value { IfOk result (λ x. (x ≡ digit_at self.old.file.now self.old.at) × (lo ≤ x) × (x < hi)) }
    {
        let x = self.peek_digit()?;
        if x < lo || hi <= x {
            return Err(self.at);
        }
        self.at += 1;
        Ok(x)
    }

    // A number of two digits, from lo on and below hi.
    pub fn number(&mut self, lo: usize, hi: usize) -> Result<usize, usize>
        ensures file { self.new.file.now ≡ self.old.file.now }
        ensures read { Reads self.old self.new 2 (number lo hi) (λ x F. F x) result }
        ensures stands { IfErr result (λ p. self.new.at ≡ p) }
        ensures value { IfOk result (λ x. (x ≡ number_at self.old.file.now self.old.at) × (lo ≤ x) × (x < hi)) }
    {
        let ten = self.peek_digit()? * 10;
        if hi <= ten || ten + 9 < lo {
            return Err(self.at);
        }
        self.at += 1;
        let unit = self.peek_digit()?;
        if 10 <= unit || ten + unit < lo || hi <= ten + unit {
            return Err(self.at);
        }
        self.at += 1;
        Ok(ten + unit)
    }

    // n numbers below hi. The place is counted in a reader of its own, and apart from the callers, so that all that the loop takes stays in registers.
    #[inline(never)]
    pub fn numbers(&mut self, hi: usize, n: usize) -> Result<(), usize>
        ensures file { self.new.file.now ≡ self.old.file.now }
        ensures read { Reads self.old self.new (n * 2) (numbers hi n) (λ _ F. F) result }
        ensures stands { IfErr result (λ p. self.new.at ≡ p) }
    {
        let mut ahead = Reader {
            file: self.file,
            at: self.at,
        };
        let read = ahead.each_number(hi, n);
        self.at = ahead.at;
        read
    }

    // The same, one by one.
    fn each_number(&mut self, hi: usize, n: usize) -> Result<(), usize>
        ensures file { self.new.file.now ≡ self.old.file.now }
        ensures read { Reads self.old self.new (n * 2) (numbers hi n) (λ _ F. F) result }
        ensures stands { IfErr result (λ p. self.new.at ≡ p) }
    {
        for _ in 0..n {
            self.number(0, hi)?;
        }
        Ok(())
    }

    // w cells below lim.
    pub fn cells(&mut self, lim: u8, w: usize) -> Result<(), usize>
        ensures file { self.new.file.now ≡ self.old.file.now }
        ensures read { Reads self.old self.new w (cells lim w) (λ _ F. F) result }
        ensures stands { IfErr result (λ p. self.new.at ≡ p) }
    {
        let end = self.at + w.min(self.file.len() - self.at);
        let row = &self.file[self.at..end];
        if let Some(i) = stray(row, lim) {
            self.at += i;
            return Err(self.at);
        }
        self.at = end;
        if row.len() < w {
            return Err(end);
        }
        Ok(())
    }
}
