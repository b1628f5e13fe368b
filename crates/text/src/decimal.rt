// Decimal numbers without leading zeros.
ghost use Rattle.std.specs.Prelude.{◌≡◌, ◌≤◌, length};
ghost use Rattle.octets.specs.Lists.{replaced};
ghost use Rattle.text.specs.Decimal.{number_in, decimal};

// The number of a field, where the field is one and is at most `most`.
pub fn read_number(field: &[u8], most: u32) -> Option<u32>
    ensures { result ≡ number_in most field.now }
{
    if field.is_empty() {
        return None;
    }
    if field.len() > 1 && field[0] == b'0' {
        return None;
    }
    let limit = u64::from(most);
    let mut value: u64 = 0;
    for digit in field {
        if !digit.is_ascii_digit() {
            return None;
        }
        value = 10 * value + u64::from(*digit - b'0');
        if value > limit {
            return None;
        }
    }
    Some(value as u32)
}

// Writes a number at the start of lent octets, the digits of its tenth part first, and answers how many octets it took: at most ten.
pub fn put_decimal(out: &mut [u8], n: u32) -> usize
    requires { length (decimal n) ≤ length out.old }
    ensures { (result ≡ length (decimal n)) × (out.new ≡ replaced out.old 0 (length (decimal n)) (decimal n)) }
{
    if n < 10 {
        out[0] = b'0' + n as u8;
        return 1;
    }
    let at = put_decimal(out, n / 10);
    out[at] = b'0' + (n % 10) as u8;
    at + 1
}
