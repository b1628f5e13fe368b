// Runs known answers through the proved functions: those published for DES, AES-256 and output feedback, those of NXDN TS 1-D's 7.2.2 and 7.2.3,
// and an independent model's voice slots, counts and messages, those of DES by both of its engines; and rows of each that one bit makes wrong. Prints one line for
// each set, with how many of its rows held, one for each row that did not, and how many of DES's selection entries the rows look at.
#![tactic(auto)]

mod blocks;
mod counts;
mod feedback;
mod messages;
mod row;
mod selection;
mod slots;
mod standard;

ghost use Rattle.std.specs.Prelude.{◌≡◌, ◌≤◌, length, take};
ghost use Rattle.std.specs.Io.{ReadsAtMost};

use crate::blocks::DesEngine;
use crate::row::is_row;
use crate::slots::Way;
use std::io::Read;
use std::rt::Files;
use std::{fs, io};
use text::part::LINE_END;

// How many rows of a set were tried, and how many of them held.
#[derive(Clone, Copy)]
struct Tally {
    held: u64,
    rows: u64,
}

fn name_row(rt: &impl Print, file: &str, line: u64) -> io::Result<()> {
    println!(rt; "not held: {file}, line {line}")
}

fn name_file(rt: &impl Print, file: &str) -> io::Result<()> {
    println!(rt; "not held: {file}, which cannot be read")
}

fn print(rt: &impl Print, title: &str, tally: Tally) -> io::Result<()> {
    let held = tally.held;
    let rows = tally.rows;
    println!(rt; "{title}: {held} of {rows} held")
}

// The most octets that a file is read into.
const FILE_OCTETS: usize = 65536;

fn room() -> [u8; FILE_OCTETS]
    ensures { length result ≡ 65536 }
{
    [0; FILE_OCTETS]
}

// Reads until the text is full or the file ends, and answers how many octets were read.
fn read_full(opened: &mut impl Read, text: &mut [u8]) -> io::Result<usize>
    ensures { ReadsAtMost result text.new }
{
    let mut done = 0;
    // Kept: the new form is no plainer: a read says itself how many octets it brought, so no range and no part of the text counts the turns.
    while done < text.len() {
        let n = opened.read(&mut text[done..])?;
        if n == 0 {
            return Ok(done);
        }
        done += n;
    }
    Ok(done)
}

fn read_file(rt: &impl Files, file: &str, text: &mut [u8]) -> io::Result<usize>
    ensures { ReadsAtMost result text.new }
{
    let mut opened = fs::open(rt, file)?;
    read_full(&mut opened, text)
}

// Reads a file whole and answers how many octets it has, or 0 where it cannot be read or may have more than fit.
fn read(rt: &impl Files, file: &str, text: &mut [u8]) -> usize
    ensures { (result ≤ length text.new) × (result ≡ length (take result text.new)) }
{
    let Ok(n) = read_file(rt, file, text) else {
        return 0;
    };
    if n == text.len() {
        return 0;
    }
    n
}

// Tries each row of a file's text. No count comes near its type's end: a file has 65,536 octets at most.
fn try_rows<F: Fn(&[u8]) -> bool>(
    rt: &impl Print,
    holds: F,
    file: &str,
    text: &[u8],
) -> io::Result<Tally>
    requires { F.IsAlwaysCallable holds }
{
    let mut held: u64 = 0;
    let mut rows: u64 = 0;
    let mut lines: u64 = 0;
    for line in text.split(|octet| *octet == LINE_END) {
        lines = lines.saturating_add(1);
        if is_row(line) {
            rows = rows.saturating_add(1);
            if holds(line) {
                held = held.saturating_add(1);
            } else {
                name_row(rt, file, lines)?;
            }
        }
    }
    Ok(Tally { held, rows })
}

// A file that cannot be read counts as a row that does not hold.
fn run<F: Fn(&[u8]) -> bool>(
    rt: &(impl Files + Print),
    holds: F,
    file: &str,
    title: &str,
) -> io::Result<()>
    requires { F.IsAlwaysCallable holds }
{
    let mut text = room();
    let n = read(rt, file, &mut text);
    if n == 0 {
        name_file(rt, file)?;
        return print(rt, title, Tally { held: 0, rows: 1 });
    }
    let tally = try_rows(rt, holds, file, &text[..n])?;
    print(rt, title, tally)
}

// Says how many of DES's selection entries a file's rows look at.
fn say_selection(rt: &(impl Files + Print), file: &str) -> io::Result<()> {
    let mut text = room();
    let n = read(rt, file, &mut text);
    let mut marks = [0u8; selection::ENTRIES];
    selection::mark_rows(&text[..n], &mut marks);
    let marked = selection::marked(&marks);
    println!(rt; "{file} looks at {marked} of the 512 selection entries")
}

// Runs a set's known answers, and then rows of them that one bit makes wrong: none of these may hold.
fn run_both<F: Fn(&[u8]) -> bool + Copy>(
    rt: &(impl Files + Print),
    holds: F,
    file: &str,
    title: &str,
    wrong: &str,
) -> io::Result<()>
    requires { (row : _) → F.Fn.pre holds row }
{
    run(rt, holds, file, title)?;
    run(
        rt,
        holds,
        wrong,
        "The same with one bit wrong, where none may hold",
    )
}

// The sets of a block alone and of output feedback, DES by one of its engines.
fn run_blocks(
    rt: &(impl Files + Print),
    engine: DesEngine,
    blocks: &str,
    feedback: &str,
) -> io::Result<()> {
    run_both(
        rt,
        |row| blocks::des_holds(engine, row),
        "des-known-answers.tsv",
        blocks,
        "des-one-bit-wrong.tsv",
    )?;
    run_both(
        rt,
        |row| feedback::holds(engine, row),
        "ofb-known-answers.tsv",
        feedback,
        "ofb-one-bit-wrong.tsv",
    )
}

// The sets of messages, DES by one of its engines.
fn run_messages(
    rt: &(impl Files + Print),
    engine: DesEngine,
    first: &str,
    later: &str,
) -> io::Result<()> {
    run_both(
        rt,
        |row| messages::holds(engine, row),
        "nxdn-first-messages.tsv",
        first,
        "nxdn-first-messages-one-bit-wrong.tsv",
    )?;
    run_both(
        rt,
        |row| messages::holds(engine, row),
        "data-messages.tsv",
        later,
        "data-messages-one-bit-wrong.tsv",
    )
}

// The slots of each rate, sent and heard.
fn run_slots(rt: &(impl Files + Print)) -> io::Result<()> {
    run_both(
        rt,
        |row| slots::holds(Way::Sent, row),
        "voice-slots.tsv",
        "Voice slots at both rates, in a first session and past it, by an independent model and OpenSSL, sent",
        "voice-slots-one-bit-wrong.tsv",
    )?;
    run_both(
        rt,
        |row| slots::holds(Way::Heard, row),
        "voice-slots.tsv",
        "The same, heard with no announcement past the first session",
        "voice-slots-one-bit-wrong.tsv",
    )?;
    run_both(
        rt,
        |row| slots::holds(Way::Whole, row),
        "voice-slots.tsv",
        "The same, heard, the session's keystream made whole, DES by its joined tables",
        "voice-slots-one-bit-wrong.tsv",
    )
}

// The slots under vectors of zeros hold heard and not sent, so that one end taken for the other shows.
fn run_zeros(rt: &(impl Files + Print)) -> io::Result<()> {
    run(
        rt,
        |row| slots::holds(Way::Heard, row),
        "voice-slots-zeros.tsv",
        "Slots of a sender whose vectors are zeros, heard with no announcement",
    )?;
    run(
        rt,
        |row| slots::holds(Way::Whole, row),
        "voice-slots-zeros.tsv",
        "The same, the session's keystream made whole, DES by its joined tables",
    )?;
    run(
        rt,
        |row| slots::holds(Way::Sent, row),
        "voice-slots-zeros.tsv",
        "The same, sent by ours, which goes by no such vector, where none may hold",
    )
}

fn run_counts(rt: &(impl Files + Print)) -> io::Result<()> {
    run(
        rt,
        counts::holds,
        "call-counts.tsv",
        "Calls to their end, words opened, held, replaced and lost, by the same model",
    )?;
    run(
        rt,
        counts::holds,
        "call-counts-one-wrong.tsv",
        "The same with one count wrong, where none may hold",
    )
}

// The sets of DES by each of its engines, and which selection entries they look at.
fn run_des(rt: &(impl Files + Print)) -> io::Result<()> {
    run_blocks(
        rt,
        DesEngine::Plain,
        "DES, SP 500-20 and SP 800-17",
        "Output feedback, FIPS 81 and SP 800-38A",
    )?;
    run_blocks(
        rt,
        DesEngine::Joined,
        "DES by its joined tables, the same",
        "Output feedback, DES by its joined tables, the same",
    )?;
    say_selection(rt, "des-known-answers.tsv")?;
    say_selection(rt, "des-one-bit-wrong.tsv")
}

fn main(rt: HostRuntime) -> io::Result<()> {
    run_des(&rt)?;
    run_both(
        &rt,
        blocks::aes_holds,
        "aes256-known-answers.tsv",
        "AES-256, FIPS 197, SP 800-38A, AESAVS and the Rijndael submission",
        "aes256-one-bit-wrong.tsv",
    )?;
    run_both(
        &rt,
        standard::holds,
        "nxdn-known-answers.tsv",
        "NXDN TS 1-D, 7.2.3",
        "nxdn-one-bit-wrong.tsv",
    )?;
    run_slots(&rt)?;
    run_zeros(&rt)?;
    run_counts(&rt)?;
    run_messages(
        &rt,
        DesEngine::Joined,
        "NXDN TS 1-D, 7.2.2, first messages",
        "Data messages past the first, by an independent model and OpenSSL",
    )?;
    run_messages(
        &rt,
        DesEngine::Plain,
        "First messages, turned with DES by its plain engine",
        "Data messages past the first, turned with DES by its plain engine",
    )
}
