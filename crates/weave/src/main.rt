// The program: takes a matrix file from standard input, and no more than 33,098 bytes of it, and writes the answer to standard output.

#![tactic(auto)]

fn main() {
    let mut input: [u8; 33098] = [0; 33098];
    let mut output: [u8; 33230] = [0; 33230];
    let taken = io::read_full(0, &mut input);
    if let Ok(size) = soroluzko::weave_bytes(&input[..taken], &mut output) {
        io::write_all(1, &output[..size]);
    }
}
