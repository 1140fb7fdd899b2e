// The calls for C, all of them: include/limpetnook.h declares each. A card is lent by `&mut` and driven in place through call after call: each
// function calls the one of `card` that takes a card by value, and stores the answer.
#![tactic(auto)]

mod board; // board.rt: the main board's side of a code
mod hand; // hand.rt: a store as it is handed over

ghost use Rattle.std.specs.Prelude.{◌≡◌};
ghost use Rattle.rules.specs.Calls.{issue, command, reset};
ghost use Rattle.power.specs.Recovery.{recover};
ghost use Rattle.cipher.specs.Call.{Enciphered};
ghost use Rattle.card.specs.Ordered.{order_of};
ghost use Rattle.stores.specs.Runs.{stores};
ghost use Rattle.texts.specs.Text.{new};
ghost use Rattle.texts.specs.Calls.{to_text, from_text, to_new, to_old};
ghost use Rattle.limpetnook.specs.Place.{Placed, PlacesIssue, PlacesCommand, PlacesText, PlacesConverted, PlacesCard, slip_of, PlacesStore, PlacesRun, card_size, version};
ghost use Rattle.limpetnook.specs.Board.{Coded};

use crate::board::{CODE_SIZE, block_of, good_lengths};
use crate::hand::slip;
use card::issue::{issue, reset};
use card::recover::recover;
use card::step::command;
use cipher::encipher;
use codes::mac;
use files::run::show;
use rules::Card;
use stores::run::stores;
use texts::calls::{from_text, to_new, to_old, to_text};

// No function of the language says how large a value is; the contract does.
const CARD_SIZE: usize = 581;

// The bytes that a card takes.
pub fn limpet_card_size() -> usize
    ensures { result ≡ card_size }
{
    CARD_SIZE
}

// The header has the same number: a caller can tell whether library and header go together.
pub fn limpet_version() -> u32
    ensures { result ≡ version }
{
    12
}

// One block of AES-128.
pub fn limpet_aes128(key: &[u8], block: &[u8], out: &mut [u8]) -> u8
    ensures { Enciphered key.now block.now out.old result out.new }
{
    encipher(key, block, out)
}

// The code of a message, for the main board's side of the bus: 0. Where key, challenge or code has another length: 6, and code stays as it was.
pub fn limpet_code(key: &[u8], challenge: &[u8], message: &[u8], code: &mut [u8]) -> u8
    ensures { Coded key.now challenge.now message.now code.old result code.new }
{
    if !good_lengths(key.len(), challenge.len(), code.len()) {
        return 6;
    }
    let block = mac(block_of(key), block_of(challenge), message);
    show(&block, 0, CODE_SIZE, code);
    0
}

// The card before it does not matter; a refused issue leaves a blank one.
pub fn limpet_issue(
    card: &mut Card,
    area: &mut [u8],
    key: &[u8],
    device_limit: u16,
    admin_pin: &[u8],
    admin_limit: u16,
    user_pin: &[u8],
    user_limit: u16,
    mode: u16,
    transport_key: &[u8],
    transport_limit: u16,
) -> u8
    ensures { PlacesIssue (issue (order_of key.now device_limit admin_pin.now admin_limit user_pin.now user_limit mode transport_key.now transport_limit) area.old) result card.new area.new }
{
    let issued = issue(
        area,
        key,
        device_limit,
        admin_pin,
        admin_limit,
        user_pin,
        user_limit,
        mode,
        transport_key,
        transport_limit,
    );
    *card = issued.card;
    issued.outcome
}

// How many bytes of the reply are the answer is stored through count. A refused command leaves the card, and none is stored.
pub fn limpet_command(
    card: &mut Card,
    area: &mut [u8],
    cmd: &[u8],
    random: &[u8],
    reply: &mut [u8],
    count: &mut usize,
) -> u8
    ensures { PlacesCommand (command card.old area.old cmd.now random.now reply.old) result card.new area.new reply.new count.new }
{
    let done = command(*card, area, cmd, random, reply);
    *count = done.n;
    if done.outcome == 0 {
        *card = done.card;
    }
    done.outcome
}

pub fn limpet_reset(card: &mut Card, area: &[u8]) -> u8
    ensures { Placed (reset card.old area.now) result card.new }
{
    let cleared = reset(*card, area);
    *card = cleared.card;
    cleared.outcome
}

// A card that a cut left in the middle of a command, or any other.
pub fn limpet_recover(card: &mut Card, area: &[u8]) -> u8
    ensures { Placed (recover card.old area.now) result card.new }
{
    let made = recover(*card, area);
    *card = made.card;
    made.outcome
}

// What C is given of a store: 1 in `given` where there is one.
#[derive(Clone, Copy)]
pub struct Slip {
    pub outcome: u8,
    pub address: u16,
    pub value: u8,
    pub given: u8,
}

// Store number n of a command; the card is the one from before the command, and stays as it was.
pub fn limpet_store(
    card: &mut Card,
    area: &[u8],
    cmd: &[u8],
    random: &[u8],
    n: usize,
    address: &mut u16,
    value: &mut u8,
    given: &mut u8,
) -> u8
    ensures { PlacesStore card.old (slip_of card.old area.now cmd.now random.now n) result card.new address.new value.new given.new }
{
    let s = slip(*card, area, cmd, random, n);
    *address = s.address;
    *value = s.value;
    *given = s.given;
    s.outcome
}

// A run of them at once, from number `first` on, three bytes each.
pub fn limpet_stores(
    card: &mut Card,
    area: &[u8],
    cmd: &[u8],
    random: &[u8],
    first: u16,
    out: &mut [u8],
    count: &mut usize,
) -> u8
    ensures { PlacesRun card.old (stores card.old area.now cmd.now random.now first out.old) result card.new out.new count.new }
{
    let done = stores(*card, area, cmd, random, first, out);
    *count = done.n;
    done.outcome
}

// The card is only read. How many bytes of the buffer are the text is stored through count.
pub fn limpet_to_text(card: &mut Card, area: &[u8], text: &mut [u8], count: &mut usize) -> u8
    ensures { PlacesText card.old (to_text new card.old area.now text.old) result card.new text.new count.new }
{
    let done = to_text(*card, area, text);
    *count = done.n;
    done.outcome
}

// The card before it does not matter; a text that is refused leaves a blank one.
pub fn limpet_from_text(card: &mut Card, area: &mut [u8], text: &[u8]) -> u8
    ensures { PlacesCard (from_text new text.now area.old) result card.new area.new }
{
    let read = from_text(area, text);
    *card = read.card;
    read.outcome
}

// An old text, without directories, into a new one.
pub fn limpet_text_to_new(old: &[u8], text: &mut [u8], count: &mut usize) -> u8
    ensures { PlacesConverted (to_new old.now text.old) result text.new count.new }
{
    let done = to_new(old, text);
    *count = done.n;
    done.outcome
}

// A new text of a card without a directory into an old one.
pub fn limpet_text_to_old(given: &[u8], text: &mut [u8], count: &mut usize) -> u8
    ensures { PlacesConverted (to_old given.now text.old) result text.new count.new }
{
    let done = to_old(given, text);
    *count = done.n;
    done.outcome
}
