// One entry of the key book: its octets, its rules, and what the operations do to it.
#![tactic(auto)]

ghost use Rattle.std.specs.Prelude.{◌≡◌, ◌≤◌, length};
ghost use Rattle.answers.specs.Outcomes.{outcome, done_of};
ghost use Rattle.octets.specs.Lists.{all_zero};
ghost use Rattle.keyentry.specs.Entry.{count_in, key_in, key_rest, in_range, lacks, ready_right, used_right, entry_right, is_for, name_in, blank, new_entry, extend_refusals, extended, complete_refusals, completed};
ghost use Rattle.sizes.specs.Ciphers.{key_room};

use crate::names::{NAME_OCTETS, name_right};
use answers::Answer;
use ciphers::key::key_allowed;
use octets::all_zero;
use sizes::cipher::{Aes, KEY_ROOM, Scramble, key_octets};

pub mod names;

pub const CIPHER: usize = 0;

pub const ID: usize = 1;

pub const COUNT: usize = 2;

pub const READY: usize = 3;

pub const KEY: usize = 4;

pub const NAME: usize = KEY + KEY_ROOM;

pub const ENTRY_OCTETS: usize = NAME + NAME_OCTETS;

pub const MOST_ID: u8 = 63;

// The key's octets, those that are not loaded too.
pub fn key(e: &[u8; ENTRY_OCTETS]) -> &[u8; KEY_ROOM]
    ensures { result.now ≡ key_in e.now }
{
    e[KEY..NAME].as_array().unwrap()
}

pub fn name_in(e: &[u8; ENTRY_OCTETS]) -> &[u8; NAME_OCTETS]
    ensures { result.now ≡ name_in e.now }
{
    e[NAME..ENTRY_OCTETS].as_array().unwrap()
}

// ---- the rules

// Whether the key octets past the count are zero.
fn rest_zero(e: &[u8; ENTRY_OCTETS]) -> bool
    requires { count_in e.now ≤ key_room }
    ensures { result ≡ all_zero (key_rest e.now) }
{
    let n = usize::from(e[COUNT]);
    let k = key(e);
    all_zero(&k[n..])
}

// Whether a cipher type and a key ID are in range.
pub fn in_range(cipher: u8, id: u8) -> bool
    ensures { result ≡ in_range cipher id }
{
    Scramble::TYPE <= cipher && cipher <= Aes::TYPE && id <= MOST_ID
}

// How many octets the key still lacks.
fn lacking(e: &[u8; ENTRY_OCTETS]) -> usize
    ensures { result ≡ lacks e.now }
{
    key_octets(e[CIPHER]).saturating_sub(usize::from(e[COUNT]))
}

fn ready_right(e: &[u8; ENTRY_OCTETS]) -> bool
    ensures { result ≡ ready_right e.now }
{
    match e[READY] {
        0 => true,
        1 => lacking(e) == 0 && key_allowed(e[CIPHER], key(e)),
        _ => false,
    }
}

fn used_right(e: &[u8; ENTRY_OCTETS]) -> bool
    ensures { result ≡ used_right e.now }
{
    if !in_range(e[CIPHER], e[ID]) {
        return false;
    }
    if usize::from(e[COUNT]) > key_octets(e[CIPHER]) {
        return false;
    }
    if !rest_zero(e) {
        return false;
    }
    ready_right(e) && name_right(name_in(e))
}

pub fn entry_right(e: &[u8; ENTRY_OCTETS]) -> bool
    ensures { result ≡ entry_right e.now }
{
    if e[CIPHER] == 0 {
        return all_zero(e);
    }
    used_right(e)
}

pub fn is_for(e: &[u8; ENTRY_OCTETS], cipher: u8, id: u8) -> bool
    ensures { result ≡ is_for cipher id e.now }
{
    e[CIPHER] == cipher && e[ID] == id
}

// ---- what the operations do to it

pub fn clear(e: &mut [u8; ENTRY_OCTETS])
    ensures { e.new ≡ blank }
{
    *e = [0; ENTRY_OCTETS];
}

pub fn write_new(e: &mut [u8; ENTRY_OCTETS], cipher: u8, id: u8, name: &[u8; NAME_OCTETS])
    ensures { e.new ≡ new_entry cipher id name.now }
{
    clear(e);
    e[CIPHER] = cipher;
    e[ID] = id;
    e[NAME..ENTRY_OCTETS].copy_from_slice(name);
}

// Puts key octets after those that are there, and counts them.
fn append(e: &mut [u8; ENTRY_OCTETS], xs: &[u8])
    requires { (count_in e.old ≤ key_room) × (length xs.now ≤ lacks e.old) }
    ensures { e.new ≡ extended e.old xs.now }
{
    let n = usize::from(e[COUNT]);
    let at = KEY + n;
    let count = n + xs.len();
    e[at..at + xs.len()].copy_from_slice(xs);
    e[COUNT] = count as u8;
}

// Add, of the entry.
pub fn extend(e: &mut [u8; ENTRY_OCTETS], xs: &[u8]) -> Result<(), Answer>
    requires { count_in e.old ≤ key_room }
    ensures { (result, e.new) ≡ done_of (outcome e.old (extend_refusals e.old xs.now) (extended e.old xs.now)) }
{
    if e[READY] == 1 {
        return Err(Answer::Already);
    }
    if xs.len() > lacking(e) {
        return Err(Answer::TooMany);
    }
    append(e, xs);
    Ok(())
}

// Finish, of the entry.
pub fn complete(e: &mut [u8; ENTRY_OCTETS]) -> Result<(), Answer>
    ensures { (result, e.new) ≡ done_of (outcome e.old (complete_refusals e.old) (completed e.old)) }
{
    if e[READY] == 1 {
        return Err(Answer::Already);
    }
    if lacking(e) > 0 {
        return Err(Answer::NotReady);
    }
    if !key_allowed(e[CIPHER], key(e)) {
        return Err(Answer::NotAllowed);
    }
    e[READY] = 1;
    Ok(())
}
