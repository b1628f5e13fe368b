// Octets in upper-case hex.
ghost use Rattle.std.specs.Prelude.{◌≡◌, ℕ, ◌+◌, ◌*◌, ◌≤◌, ◌<◌, length, get_or, Some, None};
ghost use Rattle.octets.specs.Tests.{pick, all_below};
ghost use Rattle.octets.specs.Lists.{tab};
ghost use Rattle.text.specs.Hex.{is_hex_digit, hex_value, hex_digit, is_hex, most_octets, read_hex, hex_text};

// What a digit is worth.
fn hex_value(digit: u8) -> Option<u8>
    ensures { result ≡ pick (is_hex_digit digit) (Some (hex_value digit)) None }
{
    match digit {
        b'0'..=b'9' => Some(digit - b'0'),
        b'A'..=b'F' => Some(digit - b'A' + 10),
        _ => None,
    }
}

// What each octet of a field is worth as a digit, into lent octets: one that is none counts as 0. Answers whether all are digits.
fn read_digits(field: &[u8], values: &mut [u8]) -> bool
    requires { length values.old ≡ length field.now }
    ensures value { result ≡ all_below (λ i. is_hex_digit (get_or field.now i 0)) (length field.now) }
    ensures values_after { values.new ≡ tab (λ i. hex_value (get_or field.now i 0)) (length field.now) }
{
    let mut all = true;
    for (i, place) in values.iter_mut().enumerate() {
        let value = hex_value(field[i]);
        *place = value.unwrap_or(0);
        all &= value.is_some();
    }
    all
}

// Each octet from two digits, the high one first.
fn join_digits(values: &[u8], out: &mut [u8])
    requires { (length values.now ≡ 2 * length out.old) × ((k : ℕ) → get_or values.now k 0 < 16) }
    ensures { out.new ≡ tab (λ i. 16 * get_or values.now (2 * i) 0 + get_or values.now (2 * i + 1) 0) (length out.old) }
{
    for (i, octet) in out.iter_mut().enumerate() {
        *octet = 16 * values[2 * i] + values[2 * i + 1];
    }
}

// The most octets that are read of a field.
pub const MOST_OCTETS: usize = 64;

// Reads a field into lent octets, and answers whether it is the hex of as many octets. Where its length is wrong they stay as they are;
// a digit that is none counts as 0. All digits first, and then the octets: so the compiler takes many at a time.
pub fn read_hex(field: &[u8], out: &mut [u8]) -> bool
    requires { length out.old ≤ most_octets }
    ensures value { result ≡ is_hex (length out.old) field.now }
    ensures out_after { out.new ≡ read_hex field.now out.old }
{
    let n = field.len();
    if n % 2 != 0 {
        return false;
    }
    if n / 2 != out.len() {
        return false;
    }
    let mut values = [0; 2 * MOST_OCTETS];
    let all = read_digits(field, &mut values[..n]);
    join_digits(&values[..n], out);
    all
}

fn hex_digit(n: u8) -> u8
    requires { n < 16 }
    ensures { result ≡ hex_digit n }
{
    if n < 10 {
        return b'0' + n;
    }
    b'A' + (n - 10)
}

// Writes octets as text over all of the lent ones.
pub fn put_hex(out: &mut [u8], octets: &[u8])
    requires { length out.old ≡ 2 * length octets.now }
    ensures { out.new ≡ hex_text octets.now }
{
    for (i, octet) in octets.iter().enumerate() {
        out[2 * i] = hex_digit(*octet / 16);
        out[2 * i + 1] = hex_digit(*octet % 16);
    }
}
