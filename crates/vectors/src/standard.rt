// The known outputs of the vector generator (NXDN TS 1-D, 7.2.3). The enciphered user data of 7.2.2 are first messages, in `messages`.
use crate::row::{has_octets, number, octets_of};

// The n-th output from a seed; the first is the seed itself.
fn output(seed: [u8; 8], n: u8) -> [u8; 8] {
    let mut vector = seed;
    for _ in 1..n {
        vector = generator::next_vector(&vector);
    }
    vector
}

// A row has the number of the output, the seed, the 64-bit output and the 128-bit output from field 2 on.
pub fn holds(row: &[u8]) -> bool {
    let n = number(row, 2);
    let mut seed = [0u8; 8];
    if n == 0 || !octets_of(row, 3, &mut seed) {
        return false;
    }
    let vector = output(seed, n);
    has_octets(row, 4, &vector) && has_octets(row, 5, &generator::aes_vector(&vector))
}
