// What stands in a file that is known to fit, taken from its places: numbers, and cells into a buffer. Nothing is tested again, so no reader stands here.

#![tactic(auto)]

ghost use Rattle.std.specs.Prelude.{◌≡◌, ◌+◌, ◌*◌, ◌≤◌, ◌<◌, length, get_or};
ghost use Rattle.std.proofs.lemmas.List.Edits.{sets};
ghost use Rattle.model.specs.Below.{tab};
ghost use Rattle.layout.specs.Text.{each};
ghost use Rattle.layout.specs.Layout.{cell_of, digit_at, number_at, row_at};

// The digit at a place.
pub fn digit_at(s: &[u8], at: usize) -> usize
    requires { at < length s.now }
    ensures value { result ≡ digit_at s.now at }
    ensures upper_bound { result ≤ 10 }
{
    readers::digit_of(s[at])
}

// The number of two digits at a place.
pub fn number_at(s: &[u8], at: usize) -> usize
    requires { at + 1 < length s.now }
    ensures value { result ≡ number_at s.now at }
    ensures upper_bound { result ≤ 110 }
{
    digit_at(s, at) * 10 + digit_at(s, at + 1)
}

// The values of a row's cells.
fn fill_row(row: &[u8], out: &mut [u8])
    requires { length out.old ≡ length row.now }
    ensures { out.new ≡ tab (length row.now) (λ i. cell_of (get_or row.now i 0)) }
{
    for (i, x) in row.iter().enumerate() {
        out[i] = readers::cell_of(*x);
    }
}

// The values of w cells from `at` on, to `out` from `to` on.
pub fn fill_cells(s: &[u8], at: usize, w: usize, out: &mut [u8], to: usize)
    requires { (at + w ≤ length s.now) × (to + w ≤ length out.old) }
    ensures { out.new ≡ sets out.old to (tab w (λ i. cell_of (get_or s.now (at + i) 0))) }
{
    fill_row(&s[at..at + w], &mut out[to..to + w]);
}

// The values of the cells of c records.
pub fn fill_records(s: &[u8], at: usize, w: usize, c: usize, out: &mut [u8])
    requires { (at + c * (w + 5) ≤ length s.now) × (c * w ≤ length out.old) }
    ensures { out.new
        ≡ sets out.old 0 (each c (row_at s.now at w)) }
{
    for u in 0..c {
        let from = at + u * (w + 5) + 4;
        let to = u * w;
        fill_cells(s, from, w, out, to);
    }
}

// The values of n numbers.
#[tactic(auto, using(layout::proofs::Puts::tab_start, layout::proofs::Puts::tab_turn))]
pub fn fill_numbers(s: &[u8], at: usize, n: usize, out: &mut [u8])
    requires { (at + n * 2 ≤ length s.now) × (n ≤ length out.old) }
    ensures { out.new ≡ sets out.old 0 (tab n (λ u. number_at s.now (at + u * 2))) }
{
    for u in 0..n {
        out[u] = number_at(s, at + u * 2) as u8;
    }
}
