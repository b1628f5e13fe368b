// The parts of a text between separators, by a slice and a cursor.
ghost use Rattle.std.specs.Prelude.{◌≡◌, true, ◌-◌, ◌≤◌, ◌<◌, length, take, drop};
ghost use Rattle.text.specs.Parted.{part_end};
ghost use Rattle.text.specs.Walked.{is_part};

pub const TAB: u8 = b'\t';

pub const LINE_END: u8 = b'\n';

// How many octets are looked at together: many as far as they go, and then few, so that little is left to look at one by one.
const LONG_STRIDE: usize = 16;

const SHORT_STRIDE: usize = 4;

// Whether a text is one part. All octets are compared, with no early end: so the compiler takes many at a time.
fn is_part(text: &[u8], separator: u8) -> bool
    ensures { result ≡ is_part separator text.now }
{
    text.iter()
        .fold(true, |part, octet| part & (*octet != separator))
}

// A place that the part from a place on reaches: as many whole strides of n octets as it has.
fn stride(text: &[u8], at: usize, separator: u8, n: usize) -> usize
    requires { (at ≤ length text.now) × (0 < n) }
    ensures { (at ≤ result) × (result ≤ length text.now) × (is_part separator (take (result - at) (drop at text.now)) ≡ true) }
{
    let mut end = at;
    for stride in text[at..].chunks_exact(n) {
        if !is_part(stride, separator) {
            return end;
        }
        end += n;
    }
    end
}

// Where the part that begins at a place ends: at the next separator, or at the end of the text.
pub fn part_end(text: &[u8], at: usize, separator: u8) -> usize
    requires { at ≤ length text.now }
    ensures { (result ≡ part_end separator text.now at) × (at ≤ result) × (result ≤ length text.now) }
{
    let near = stride(text, at, separator, LONG_STRIDE);
    let end = stride(text, near, separator, SHORT_STRIDE);
    match text[end..].iter().position(|octet| *octet == separator) {
        Some(left) => end + left,
        None => text.len(),
    }
}
