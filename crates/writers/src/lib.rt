// The pieces of a file, written one behind the other: each goes to the buffer from the writer's place on, and the other bytes stay.

#![tactic(auto)]

ghost use Rattle.std.specs.Prelude.{◌≡◌, ℕ, ◌+◌, ◌*◌, ◌≤◌, ◌<◌, length, get_or};
ghost use Rattle.model.specs.Below.{tab};
ghost use Rattle.layout.specs.Text.{each, one, two, cell_char};

// A buffer, and the place that the next byte goes to.
#[derive(Drop)]
pub struct Writer<'a> {
    pub buffer: &'a mut [u8],
    pub at: usize,
}

impl<'a> Writer<'a> {
    ghost use Rattle.writers.specs.Writes.{HasRoom, Writes};

    // At the start of the buffer.
    pub fn new(buffer: &'a mut [u8]) -> Writer<'a>
        ensures same_buffer { result.buffer.ghost_name ≡ buffer.entry.ghost_name }
        ensures untouched { result.buffer.now ≡ buffer.old }
        ensures at_start { result.at ≡ 0 }
    {
        Writer { buffer, at: 0 }
    }

    // Bytes as they are: a mark, a line feed.
    pub fn put(&mut self, text: &[u8])
        requires { HasRoom self.old (length text.now) }
        ensures { Writes self.old self.new text.now }
    {
        let end = self.at + text.len();
        self.buffer[self.at..end].copy_from_slice(text);
        self.at = end;
    }

    // One digit.
    pub fn put_digit(&mut self, x: usize)
        requires { HasRoom self.old 1 × (x < 10) }
        ensures { Writes self.old self.new (one x) }
    {
        self.put(&[(48 + x) as u8]);
    }

    // Two digits.
    pub fn put_number(&mut self, x: usize)
        requires { HasRoom self.old 2 × (x < 100) }
        ensures { Writes self.old self.new (two x) }
    {
        self.put_digit(x / 10);
        self.put_digit(x % 10);
    }

    // Two digits for each of the numbers.
    pub fn put_numbers(&mut self, numbers: &[u8])
        requires out_has_room { HasRoom self.old (length numbers.now * 2) }
        requires below_100 { (i : ℕ) → i < length numbers.now → get_or numbers.now i 0 < 100 }
        ensures written { Writes self.old self.new (each (length numbers.now) (λ u. two (get_or numbers.now u 0))) }
        ensures ends { self.new.at ≡ self.old.at + length numbers.now * 2 }
    {
        for x in numbers {
            self.put_number(*x as usize);
        }
    }

    // The characters of the cells.
    pub fn put_cells(&mut self, cells: &[u8])
        requires { HasRoom self.old (length cells.now) }
        ensures written { Writes self.old self.new (tab (length cells.now) (λ i. cell_char (get_or cells.now i 0))) }
        ensures ends { self.new.at ≡ self.old.at + length cells.now }
    {
        let at = self.at;
        let out = &mut *self.buffer;
        for (i, cell) in cells.iter().enumerate() {
            out[at + i] = cell_char(*cell);
        }
        self.at += cells.len();
    }
}

// The character of a cell.
fn cell_char(cell: u8) -> u8
    ensures { result ≡ cell_char cell }
{
    match cell {
        0 => b'0',
        1 => b'1',
        _ => b'*',
    }
}
