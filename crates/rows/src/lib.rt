// The lines of a file, written: each goes to the buffer from the writer's place on, and the other bytes stay.

#![tactic(auto)]

ghost use Rattle.std.specs.Prelude.{◌≡◌, ◌++◌, ◌+◌, ◌*◌, ◌≤◌, ◌<◌, length};
ghost use Rattle.layout.specs.Text.{ZZ, each, one, two, line, record_text};
ghost use Rattle.writers.specs.Writes.{HasRoom, Writes};

use writers::Writer;

// Record u, of w cells.
pub fn put_record(out: &mut Writer, mark: &[u8; 2], u: usize, w: usize, cells: &[u8])
    requires { (u < 100) × HasRoom out.old (w + 5) × (u * w + w ≤ length cells.now) }
    ensures written { Writes out.old out.new (record_text mark.now w cells.now u) }
    ensures ends { out.new.at ≡ out.old.at + (w + 5) }
{
    out.put(mark);
    out.put_number(u);
    out.put_cells(&cells[u * w..u * w + w]);
    out.put(b"\n");
}

// c records of w cells each.
pub fn put_records(out: &mut Writer, mark: &[u8; 2], c: usize, w: usize, cells: &[u8])
    requires { (c ≤ 100) × HasRoom out.old (c * (w + 5)) × (c * w ≤ length cells.now) }
    ensures written { Writes out.old out.new (each c (record_text mark.now w cells.now)) }
    ensures ends { out.new.at ≡ out.old.at + c * (w + 5) }
{
    for u in 0..c {
        put_record(out, mark, u, w, cells);
    }
}

// A mark, the number of entities, that of rights.
pub fn put_sizes(out: &mut Writer, mark: &[u8; 2], n: usize, k: usize)
    requires { (n < 100) × (k < 10) × HasRoom out.old 5 }
    ensures { Writes out.old out.new (mark.now ++ (two n ++ one k)) }
{
    out.put(mark);
    out.put_number(n);
    out.put_digit(k);
}

// The last line.
pub fn put_close(out: &mut Writer)
    requires { HasRoom out.old 3 }
    ensures { Writes out.old out.new (line ZZ) }
{
    out.put(b"ZZ\n");
}
