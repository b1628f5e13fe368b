// A call, for C.
ghost use Rattle.std.specs.Prelude.{◌≡◌, []};
ghost use Rattle.nxdn.specs.Operations.{Open, Start, Join, Voice, Lost, End, Announce};
ghost use Rattle.nxdn.specs.Interface.{Of, Heard, on_call, on_batch, Next, on_look};

#[unsafe(no_mangle)]
pub extern "C" fn nxdn_open(
    call: &mut [u8],
    cipher: u8,
    id: u8,
    rate: u8,
    strictness: u8,
    vector: &[u8],
    book: &[u8],
) -> u8
    ensures { (result, (call.new, [])) ≡ on_call book.now (Of (Open cipher id rate strictness vector.now)) call.old [] }
{
    nxdn::call::nxdn_open(call, cipher, id, rate, strictness, vector, book)
}

#[unsafe(no_mangle)]
pub extern "C" fn nxdn_start(
    call: &mut [u8],
    cipher: u8,
    id: u8,
    rate: u8,
    vector: &[u8],
    book: &[u8],
) -> u8
    ensures { (result, (call.new, [])) ≡ on_call book.now (Of (Start cipher id rate vector.now)) call.old [] }
{
    nxdn::call::nxdn_start(call, cipher, id, rate, vector, book)
}

#[unsafe(no_mangle)]
pub extern "C" fn nxdn_join(
    call: &mut [u8],
    cipher: u8,
    id: u8,
    rate: u8,
    strictness: u8,
    book: &[u8],
) -> u8
    ensures { (result, (call.new, [])) ≡ on_call book.now (Of (Join cipher id rate strictness)) call.old [] }
{
    nxdn::call::nxdn_join(call, cipher, id, rate, strictness, book)
}

#[unsafe(no_mangle)]
pub extern "C" fn nxdn_voice(call: &mut [u8], mask: u8, frame: &mut [u8]) -> u8
    ensures { (result, (call.new, frame.new)) ≡ on_call [] (Of (Voice mask frame.old)) call.old frame.old }
{
    nxdn::call::nxdn_voice(call, mask, frame)
}

#[unsafe(no_mangle)]
pub extern "C" fn nxdn_lost(call: &mut [u8]) -> u8
    ensures { (result, (call.new, [])) ≡ on_call [] (Of Lost) call.old [] }
{
    nxdn::call::nxdn_lost(call)
}

#[unsafe(no_mangle)]
pub extern "C" fn nxdn_announce(call: &mut [u8], vector: &[u8]) -> u8
    ensures { (result, (call.new, [])) ≡ on_call [] (Of (Announce vector.now)) call.old [] }
{
    nxdn::call::nxdn_announce(call, vector)
}

#[unsafe(no_mangle)]
pub extern "C" fn nxdn_heard(call: &mut [u8], vector: &[u8]) -> u8
    ensures { (result, (call.new, [])) ≡ on_call [] (Heard vector.now) call.old [] }
{
    nxdn::call::nxdn_heard(call, vector)
}

#[unsafe(no_mangle)]
pub extern "C" fn nxdn_next_vector(call: &[u8], vector: &mut [u8]) -> u8
    ensures { (result, vector.new) ≡ on_look Next call.now vector.old }
{
    nxdn::call::nxdn_next_vector(call, vector)
}

#[unsafe(no_mangle)]
pub extern "C" fn nxdn_batch(call: &mut [u8], steps: &mut [u8], answers: &mut [u8]) -> u8
    ensures { (result, (call.new, (steps.new, answers.new))) ≡ on_batch call.old steps.old answers.old }
{
    nxdn::call::nxdn_batch(call, steps, answers)
}

#[unsafe(no_mangle)]
pub extern "C" fn nxdn_end(call: &mut [u8], counts: &mut [u32]) -> u8
    ensures { (result, (call.new, counts.new)) ≡ on_call [] (Of End) call.old counts.old }
{
    nxdn::call::nxdn_end(call, counts)
}
