// The calls for C as a static library: include/limpetnook.h declares each. Each export is the function of its name in `limpetnook`, with the same
// clauses.
#![tactic(auto)]

ghost use Rattle.std.specs.Prelude.{◌≡◌};
ghost use Rattle.rules.specs.Calls.{issue, command, reset};
ghost use Rattle.power.specs.Recovery.{recover};
ghost use Rattle.cipher.specs.Call.{Enciphered};
ghost use Rattle.card.specs.Ordered.{order_of};
ghost use Rattle.stores.specs.Runs.{stores};
ghost use Rattle.texts.specs.Text.{new};
ghost use Rattle.texts.specs.Calls.{to_text, from_text, to_new, to_old};
ghost use Rattle.limpetnook.specs.Place.{Placed, PlacesIssue, PlacesCommand, PlacesText, PlacesConverted, PlacesCard, slip_of, PlacesStore, PlacesRun, card_size, version};
ghost use Rattle.limpetnook.specs.Board.{Coded};

use rules::Card;

#[unsafe(no_mangle)]
pub extern "C" fn limpet_card_size() -> usize
    ensures { result ≡ card_size }
{
    limpetnook::limpet_card_size()
}

#[unsafe(no_mangle)]
pub extern "C" fn limpet_version() -> u32
    ensures { result ≡ version }
{
    limpetnook::limpet_version()
}

#[unsafe(no_mangle)]
pub extern "C" fn limpet_aes128(key: &[u8], block: &[u8], out: &mut [u8]) -> u8
    ensures { Enciphered key.now block.now out.old result out.new }
{
    limpetnook::limpet_aes128(key, block, out)
}

#[unsafe(no_mangle)]
pub extern "C" fn limpet_code(key: &[u8], challenge: &[u8], message: &[u8], code: &mut [u8]) -> u8
    ensures { Coded key.now challenge.now message.now code.old result code.new }
{
    limpetnook::limpet_code(key, challenge, message, code)
}

#[unsafe(no_mangle)]
pub extern "C" fn limpet_issue(
    card: &mut Card,
    area: &mut [u8],
    key: &[u8],
    device_limit: u16,
    admin_pin: &[u8],
    admin_limit: u16,
    user_pin: &[u8],
    user_limit: u16,
    mode: u16,
    transport_key: &[u8],
    transport_limit: u16,
) -> u8
    ensures { PlacesIssue (issue (order_of key.now device_limit admin_pin.now admin_limit user_pin.now user_limit mode transport_key.now transport_limit) area.old) result card.new area.new }
{
    limpetnook::limpet_issue(
        card,
        area,
        key,
        device_limit,
        admin_pin,
        admin_limit,
        user_pin,
        user_limit,
        mode,
        transport_key,
        transport_limit,
    )
}

#[unsafe(no_mangle)]
pub extern "C" fn limpet_command(
    card: &mut Card,
    area: &mut [u8],
    cmd: &[u8],
    random: &[u8],
    reply: &mut [u8],
    count: &mut usize,
) -> u8
    ensures { PlacesCommand (command card.old area.old cmd.now random.now reply.old) result card.new area.new reply.new count.new }
{
    limpetnook::limpet_command(card, area, cmd, random, reply, count)
}

#[unsafe(no_mangle)]
pub extern "C" fn limpet_reset(card: &mut Card, area: &[u8]) -> u8
    ensures { Placed (reset card.old area.now) result card.new }
{
    limpetnook::limpet_reset(card, area)
}

#[unsafe(no_mangle)]
pub extern "C" fn limpet_recover(card: &mut Card, area: &[u8]) -> u8
    ensures { Placed (recover card.old area.now) result card.new }
{
    limpetnook::limpet_recover(card, area)
}

#[unsafe(no_mangle)]
pub extern "C" fn limpet_store(
    card: &mut Card,
    area: &[u8],
    cmd: &[u8],
    random: &[u8],
    n: usize,
    address: &mut u16,
    value: &mut u8,
    given: &mut u8,
) -> u8
    ensures { PlacesStore card.old (slip_of card.old area.now cmd.now random.now n) result card.new address.new value.new given.new }
{
    limpetnook::limpet_store(card, area, cmd, random, n, address, value, given)
}

#[unsafe(no_mangle)]
pub extern "C" fn limpet_stores(
    card: &mut Card,
    area: &[u8],
    cmd: &[u8],
    random: &[u8],
    first: u16,
    out: &mut [u8],
    count: &mut usize,
) -> u8
    ensures { PlacesRun card.old (stores card.old area.now cmd.now random.now first out.old) result card.new out.new count.new }
{
    limpetnook::limpet_stores(card, area, cmd, random, first, out, count)
}

#[unsafe(no_mangle)]
pub extern "C" fn limpet_to_text(
    card: &mut Card,
    area: &[u8],
    text: &mut [u8],
    count: &mut usize,
) -> u8
    ensures { PlacesText card.old (to_text new card.old area.now text.old) result card.new text.new count.new }
{
    limpetnook::limpet_to_text(card, area, text, count)
}

#[unsafe(no_mangle)]
pub extern "C" fn limpet_from_text(card: &mut Card, area: &mut [u8], text: &[u8]) -> u8
    ensures { PlacesCard (from_text new text.now area.old) result card.new area.new }
{
    limpetnook::limpet_from_text(card, area, text)
}

#[unsafe(no_mangle)]
pub extern "C" fn limpet_text_to_new(old: &[u8], text: &mut [u8], count: &mut usize) -> u8
    ensures { PlacesConverted (to_new old.now text.old) result text.new count.new }
{
    limpetnook::limpet_text_to_new(old, text, count)
}

#[unsafe(no_mangle)]
pub extern "C" fn limpet_text_to_old(given: &[u8], text: &mut [u8], count: &mut usize) -> u8
    ensures { PlacesConverted (to_old given.now text.old) result text.new count.new }
{
    limpetnook::limpet_text_to_old(given, text, count)
}
