// What a screen shows of a book and of a call, for C.
ghost use Rattle.std.specs.Prelude.{◌≡◌, true, length};
ghost use Rattle.octets.specs.Tests.{pick};
ghost use Rattle.calls.specs.Call.{good_call};
ghost use Rattle.nxdn.specs.Operations.{Name, Inventory, listed};
ghost use Rattle.nxdn.specs.Shown.{shown_octets, turns_now, shown_call};
ghost use Rattle.nxdn.specs.Interface.{on_screen, Show, on_look};

use crate::WRONG_LENGTH;
use crate::lent::call_in;
use answers::Answer;
use calls::call::{Call, UNKNOWN, good_call};
use hearing::call_of;
use keybook::screen::Shown;
use keyentry::names::NAME_OCTETS;
use voice::slot::is_full;

// ---- of the book

pub fn nxdn_name(book: &[u8], cipher: u8, id: u8, name: &mut [u8]) -> u8
    ensures { (result, name.new) ≡ on_screen book.now (Name cipher id) name.old }
{
    if name.len() != NAME_OCTETS {
        return WRONG_LENGTH;
    }
    match keybook::screen::name(book, cipher, id) {
        Ok(octets) => {
            name.copy_from_slice(&octets);
            0
        }
        Err(refusal) => refusal.number(),
    }
}

const NAME: usize = 4;

const SHOWN_KEY: usize = NAME + NAME_OCTETS;

fn lay_entry(shown: &mut [u8], entry: Shown)
    requires { length shown.old ≡ 20 }
    ensures { shown.new ≡ listed entry }
{
    shown[..NAME].copy_from_slice(&[entry.cipher, entry.id, entry.loaded, u8::from(entry.ready)]);
    shown[NAME..SHOWN_KEY].copy_from_slice(&entry.name);
}

pub fn nxdn_inventory(book: &[u8], entry: usize, shown: &mut [u8]) -> u8
    ensures { (result, shown.new) ≡ on_screen book.now (Inventory entry) shown.old }
{
    if shown.len() != SHOWN_KEY {
        return WRONG_LENGTH;
    }
    match keybook::screen::inventory(book, entry) {
        Ok(found) => {
            lay_entry(shown, found);
            0
        }
        Err(refusal) => refusal.number(),
    }
}

// ---- of a call

// Whether a slot with a right mask and frame is turned now.
fn turns_now(call: Call) -> bool
    requires { good_call call ≡ true }
    ensures { result ≡ turns_now call }
{
    if call.known == UNKNOWN {
        return false;
    }
    !is_full(call)
}

const SHOWN_CALL: usize = 5;

fn lay_call(shown: &mut [u8], call: Call)
    requires { (length shown.old ≡ shown_octets) × (good_call call ≡ true) }
    ensures { shown.new ≡ shown_call call }
{
    shown.copy_from_slice(&[
        call.end,
        call.terms.cipher,
        call.terms.rate,
        call.position,
        u8::from(turns_now(call)),
    ]);
}

pub fn nxdn_show(call: &[u8], shown: &mut [u8]) -> u8
    ensures { (result, shown.new) ≡ on_look Show call.now shown.old }
{
    let Some(before) = call_in(call) else {
        return WRONG_LENGTH;
    };
    if shown.len() != SHOWN_CALL {
        return WRONG_LENGTH;
    }
    let held = call_of(before);
    if !good_call(held) {
        return Answer::Bad.number();
    }
    lay_call(shown, held);
    0
}
