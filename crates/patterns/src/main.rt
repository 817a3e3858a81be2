// The patterns of document 01, woven by the calls themselves: prints what each call answered and what it left in its buffers. The
// buffers are longer than what is written and full of nines, which show that later bytes stay.

#![tactic(auto)]

ghost use Rattle.io.specs.Counts.{IsPrefixLen};

use judge::Verdict;
use model::Refusal;

fn main() {
    builds();
    builds_of_three();
    judges();
    limits();
    build_shown(b"P16 build: ", 2, 1, b"0*30");
    comparisons();
}

fn builds() {
    build_shown(b"P1 build: ", 0, 1, b"");
    build_shown(b"P2 build: ", 1, 1, b"1");
    build_shown(b"P3 build: ", 2, 1, b"0110");
    build_shown(b"P4 build: ", 2, 1, b"1111");
    build_shown(b"P5 build: ", 2, 1, b"0000");
}

fn builds_of_three() {
    build_shown(b"P6 build: ", 3, 1, b"001001000");
    build_shown(b"P7 build: ", 3, 1, b"000000010");
    build_shown(b"P8 build: ", 3, 1, b"010000010");
    build_shown(b"P9 build: ", 2, 2, b"11011100");
    build_shown(b"P10 build: ", 3, 1, b"1*******0");
}

fn judges() {
    judge_shown(b"P11 judge: ", 2, b"001", b"1000");
    judge_shown(b"P12 judge: ", 2, b"011", b"1000");
    judge_shown(b"P13 judge: ", 2, b"010", b"1000");
    judge_shown(b"P14 judge: ", 1, b"000", b"0");
}

fn limits() {
    limits_shown(64, 8);
    limits_shown(65, 1);
    limits_shown(1, 0);
    limits_shown(1, 9);
}

fn comparisons() {
    alike_shown(b"P3", 2, 1, b"0110");
    alike_shown(b"P6", 3, 1, b"001001000");
    alike_shown(b"P7", 3, 1, b"000000010");
    alike_shown(b"P10", 3, 2, b"1*******0");
}

// A build over buffers of 8 and of 16 bytes.
fn build_shown(name: &[u8], n: usize, k: usize, text: &[u8]) {
    let mut cells = [0u8; 16];
    let mut assignment = [9u8; 8];
    let mut table = [9u8; 16];
    let size = read_cells(text, &mut cells);
    say(name);
    let built = build::build(n, k, &cells[..size], &mut assignment, &mut table);
    show_built(built);
    show_left(&assignment, &table);
}

// P15: a build of a matrix without a grant, as large as the sizes say where they are within the limits.
fn limits_shown(n: usize, k: usize) {
    let cells = [0u8; 32768];
    let mut assignment = [9u8; 65];
    let mut table = [9u8; 9];
    show_count(b"P15 build, n ", n);
    show_count(b", k ", k);
    say(b": ");
    let built = build::build(n, k, &cells, &mut assignment, &mut table);
    show_built(built);
    show_left(&assignment, &table);
}

fn show_built(built: Result<usize, Refusal>) {
    match built {
        Ok(d) => show_count(b"d ", d),
        Err(r) => show_refusal(r),
    }
}

// What the build left in its buffers.
fn show_left(assignment: &[u8], table: &[u8]) {
    show_part(assignment);
    show_part(table);
    say(b"\n");
}

fn show_part(cells: &[u8]) {
    say(b"; ");
    show_cells(cells);
}

// A policy offered for the matrix of P10.
fn judge_shown(name: &[u8], d: usize, assignment_text: &[u8], table_text: &[u8]) {
    let cells = [1, 2, 2, 2, 2, 2, 2, 2, 0];
    let mut assignment = [0u8; 3];
    let mut table = [0u8; 4];
    let assignment_size = read_cells(assignment_text, &mut assignment);
    let table_size = read_cells(table_text, &mut table);
    say(name);
    let judged = judge::judge(
        3,
        1,
        d,
        &cells,
        &assignment[..assignment_size],
        &table[..table_size],
    );
    show_judged(judged);
    say(b"\n");
}

fn show_judged(judged: Result<Verdict, Refusal>) {
    match judged {
        Ok(Verdict::Enforces(d)) => show_count(b"enforces, d ", d),
        Ok(Verdict::Conflict { cell, logged }) => {
            show_count(b"conflict at cell ", cell);
            show_count(b", logged ", logged as usize);
        }
        Err(r) => show_refusal(r),
    }
}

// Entity 0 and entity v, with one right.
fn alike_shown(name: &[u8], n: usize, v: usize, text: &[u8]) {
    let mut cells = [0u8; 16];
    let size = read_cells(text, &mut cells);
    say(name);
    show_count(b" alike 0, ", v);
    say(b": ");
    let compared = alike::alike(n, 1, 0, v, &cells[..size]);
    show_compared(compared);
    say(b"\n");
}

fn show_compared(compared: Result<bool, Refusal>) {
    match compared {
        Ok(true) => say(b"yes"),
        Ok(false) => say(b"no"),
        Err(r) => show_refusal(r),
    }
}

// The characters of the matrix file as cells; how many there are.
fn read_cells(text: &[u8], cells: &mut [u8]) -> usize
    ensures { IsPrefixLen result cells.new }
{
    let size = text.len().min(cells.len());
    for i in 0..size {
        cells[i] = cell_of(text[i]);
    }
    size
}

fn cell_of(character: u8) -> u8 {
    if character == b'*' {
        return 2;
    }
    if character < b'0' {
        return 255;
    }
    character - b'0'
}

fn show_refusal(r: Refusal) {
    show_count(b"refused ", r.fault.number());
    show_count(b", place ", r.place);
}

fn show_cells(cells: &[u8]) {
    for cell in cells {
        show_number(*cell as usize);
    }
}

fn show_count(what: &[u8], x: usize) {
    say(what);
    show_number(x);
}

fn show_number(x: usize) {
    io::print_decimal(1, x as u64);
}

fn say(text: &[u8]) {
    io::write_all(1, text);
}
