// The scans of bytes: whether some byte passes a test, and the lowest place that is at fault, by blocks.

#![tactic(auto)]

ghost use Rattle.std.specs.Prelude.{◌≡◌, ℕ, Bool, ◌+◌, ◌<◌, min, leb, length, get_or, position};
ghost use Rattle.model.specs.Below.{any};
ghost use Rattle.lowest.specs.Place.{IsLowest};

// Whether some byte passes the test. There is no branch inside, so that the compiler takes many bytes at a time.
pub fn some_passes<F: Fn(u8) -> bool>(s: &[u8], test: F) -> bool
    requires { F.IsAlwaysCallable test }
    ensures { (p : ℕ → Bool) → ((x : ℕ) (y : Bool) → x < 256 → F.post test x y → y ≡ p x) → result ≡ any (length s.now) (λ i. p (get_or s.now i 0)) }
{
    let mut found = false;
    for x in s {
        found = found | test(*x);
    }
    found
}

// Whether some byte is b or more.
fn reaches(s: &[u8], b: u8) -> bool
    ensures { result ≡ any (length s.now) (λ i. leb b (get_or s.now i 0)) }
{
    some_passes(s, |x| b <= x)
}

// The lowest place of a byte that is b or more: byte by byte.
fn lowest_in(s: &[u8], b: u8) -> Option<usize>
    ensures { result ≡ position (leb b) s.now }
{
    s.iter().position(|x| b <= *x)
}

// The same, where the bytes are first looked at together: one by one only where there is such a byte.
fn lowest_in_block(s: &[u8], b: u8) -> Option<usize>
    ensures { IsLowest (leb b) s.now result }
{
    if reaches(s, b) { lowest_in(s, b) } else { None }
}

// The same by blocks: only the block that has such a byte is looked through. A block's length is a constant, which the compiler takes in one go; what
// is left over comes last, in a shorter block.
fn lowest_by_blocks(s: &[u8], b: u8) -> Option<usize>
    ensures { IsLowest (leb b) s.now result }
{
    for block in 0..s.len() / 256 {
        let i = block * 256;
        let e = i + 256;
        if let Some(x) = lowest_in_block(&s[i..e], b) {
            return Some(i + x);
        }
    }
    let i = s.len() - s.len() % 256;
    let x = lowest_in_block(&s[i..s.len()], b)?;
    Some(i + x)
}

// The lowest place of a byte that is b or more.
pub fn lowest_from(s: &[u8], b: usize) -> Option<usize>
    ensures { IsLowest (leb b) s.now result }
{
    if 255 < b {
        return None;
    }
    lowest_by_blocks(s, b as u8)
}
