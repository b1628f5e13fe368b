// A report of calls that have ended: their counts added up, and opened over opened plus held (document 02, W-207).
#![tactic(auto)]

ghost use Rattle.std.specs.Prelude.{◌≡◌, true, ◌≤◌, ◌<◌};
ghost use Rattle.answers.specs.Outcomes.{result_of};
ghost use Rattle.report.specs.Report.{per_call, calls, most_calls, counts_within, sum_at, figures, sums, report_of};
ghost use Rattle.std.specs.Result.{result_map_both};

use answers::Answer;
use sizes::frame::MOST_WORDS;

// The counts of a call, and the place of each.
const PER_CALL: usize = 4;

const OPENED: usize = 0;

const HELD: usize = 1;

const REPLACED: usize = 2;

const LOST: usize = 3;

const MOST_CALLS: usize = 10_000;

// How many counts are looked at before it is asked whether to go on.
const PART: usize = 32;

// The sums, and opened over opened plus held as part over whole.
#[derive(Clone, Copy, PartialEq, Eq)]
pub struct Sums {
    pub opened: u64,
    pub held: u64,
    pub replaced: u64,
    pub lost: u64,
    pub part: u64,
    pub whole: u64,
}

// Whether all of a part are within. All are looked at, so the compiler takes many at a time.
fn part_within(counts: &[u32]) -> bool
    ensures { result ≡ counts_within counts.now }
{
    counts
        .iter()
        .fold(true, |within, count| within & (*count <= MOST_WORDS))
}

// Kept: a turn goes on by a part, and stops at one that isn't within. A fold over all is as quick and doesn't stop; `all` stops and takes one at a time.
fn counts_within(counts: &[u32]) -> bool
    ensures { result ≡ counts_within counts.now }
{
    let mut rest = counts;
    while let Some((part, others)) = rest.split_first_chunk::<PART>() {
        if !part_within(part) {
            return false;
        }
        rest = others;
    }
    part_within(rest)
}

fn sum_at(counts: &[u32], place: usize) -> u64
    requires { (place < per_call) × (calls counts.now ≤ most_calls) × (counts_within counts.now ≡ true) }
    ensures { result ≡ sum_at place counts.now }
{
    let mut sum: u64 = 0;
    for call in 0..counts.len() / PER_CALL {
        sum += u64::from(counts[PER_CALL * call + place]);
    }
    sum
}

// The sums of counts that nothing refuses.
fn added(counts: &[u32]) -> Sums
    requires { (calls counts.now ≤ most_calls) × (counts_within counts.now ≡ true) }
    ensures { figures result ≡ sums counts.now }
{
    let opened = sum_at(counts, OPENED);
    let held = sum_at(counts, HELD);
    let replaced = sum_at(counts, REPLACED);
    let lost = sum_at(counts, LOST);
    Sums {
        opened,
        held,
        replaced,
        lost,
        part: opened,
        whole: opened + held,
    }
}

// The counts of up to 10,000 calls, four to a call in the order in which end gives them.
pub fn report(counts: &[u32]) -> Result<Sums, Answer>
    ensures { result_map_both figures (λ a. a) result ≡ result_of (report_of counts.now) }
{
    if counts.len() % PER_CALL != 0 {
        return Err(Answer::WrongLength);
    }
    if counts.len() / PER_CALL > MOST_CALLS || !counts_within(counts) {
        return Err(Answer::PastLimit);
    }
    Ok(added(counts))
}
