// The store of a command that is asked for: checked as the command is, by the same functions, and then worked out alone.
ghost use Rattle.std.specs.Prelude.{◌≡◌, cond, [], ◌≤◌, length};
ghost use Rattle.rules.specs.Words.{first};
ghost use Rattle.rules.specs.State.{value_of, credential, logins, challenge};
ghost use Rattle.rules.specs.Frame.{framed};
ghost use Rattle.rules.specs.Binary.{update_binary_checks, update_binary_deed};
ghost use Rattle.rules.specs.Record.{record_found, update_record_checks, update_record_deed, append_checks, append_deed};
ghost use Rattle.rules.specs.Pins.{verify_checks, verify_touch, change_checks, change_touch, reload_checks, reload_touch};
ghost use Rattle.rules.specs.Device.{cryptogram, authenticate_checks, authenticate_touch};
ghost use Rattle.rules.specs.Create.{create_checks, create_deed};
ghost use Rattle.card.specs.Checks.{checked};
ghost use Rattle.card.specs.Head.{head_of, coded_of, command_of};
ghost use Rattle.card.specs.Carried.{Ready};
ghost use Rattle.card.specs.Coded.{code_given};
ghost use Rattle.power.specs.Plan.{stores_of};
ghost use Rattle.power.specs.Address.{store_at};
ghost use Rattle.stores.specs.Handing.{stores_if, touch_if, deed_if, rest_stores, open_sw, presented, coded_stores, plan_stores, refusal, store};

use crate::{
    Handed, append_store, found_store, lowered_store, make_store, no_store, reload_store,
    restored_store, tries_store, update_store, value_store,
};
use card::sound::is_sound;
use card::state::{held_at, tries_at};
use card::step::RANDOM_SIZE;
use card::{
    AREA_SIZE, Header, Refused, binary, code, create, device, frame, list, pins, record, response,
};
use files::places::{end, start};
use files::record::{after_append, next_start};
use files::sizes::size;
use power::Numbered;
use rules::{ADMIN, Card, DEVICE, Ins, TRANSPORT, USER};

// The checks of a command, by the parts of the card that they look at.
fn check_verify(card: Card, h: Header, given: &[u8]) -> Result<(), Refused>
    ensures { result ≡ checked (first (verify_checks (logins card) (command_of h given.now))) }
{
    let n = pins::pin_named(h);
    pins::check_verify(tries_at(card, n), held_at(card, n), h, given)
}

fn check_authenticate(card: Card, h: Header, given: &[u8]) -> Result<(), Refused>
    ensures { result ≡ checked (first (authenticate_checks (logins card) (challenge card) (command_of h given.now))) }
{
    device::check_authenticate(tries_at(card, DEVICE), card.session, h, given)
}

fn check_change(card: Card, h: Header, given: &[u8]) -> Result<(), Refused>
    ensures { result ≡ checked (first (change_checks (logins card) (command_of h given.now))) }
{
    pins::check_change(held_at(card, pins::pin_named(h)), h, given)
}

fn check_reload(card: Card, h: Header, given: &[u8]) -> Result<(), Refused>
    ensures { result ≡ checked (first (reload_checks (logins card) (command_of h given.now))) }
{
    pins::check_reload(held_at(card, ADMIN), h, given)
}

fn check_create(card: Card, h: Header, given: &[u8]) -> Result<(), Refused>
    ensures { result ≡ checked (first (create_checks card (command_of h given.now))) }
{
    create::check_create(card.session, card.directory, h, given)
}

// Under all sixteen bytes of the device key.
fn cryptogram(card: Card) -> [u8; 16]
    ensures { result ≡ cryptogram (credential card 0).value (challenge card) }
{
    device::cryptogram(card.credentials[DEVICE].value, card.session)
}

// Store 0 is worked out before anything is compared.
fn verify(card: Card, h: Header, given: &[u8], k: usize) -> Numbered
    ensures { result ≡ store_at (touch_if (verify_checks (logins card) (command_of h given.now)) card (verify_touch (logins card) (command_of h given.now))) k }
{
    if check_verify(card, h, given).is_err() {
        return no_store();
    }
    if h.case == 1 {
        return no_store();
    }
    let n = pins::pin_named(h);
    let tries = tries_at(card, n);
    if k == 0 {
        return lowered_store(n, tries);
    }
    restored_store(n, tries, pins::is_value(card, n, given), k - 1)
}

// Store 0 before the cryptogram is worked out.
fn authenticate(card: Card, h: Header, given: &[u8], k: usize) -> Numbered
    requires { value_of (credential card 0) ≡ (credential card 0).value }
    ensures { result ≡ store_at (touch_if (authenticate_checks (logins card) (challenge card) (command_of h given.now)) card (authenticate_touch (logins card) (challenge card) (command_of h given.now))) k }
{
    if check_authenticate(card, h, given).is_err() {
        return no_store();
    }
    let tries = tries_at(card, DEVICE);
    if k == 0 {
        return lowered_store(DEVICE, tries);
    }
    let agrees = pins::same(cryptogram(card), 16, given);
    restored_store(DEVICE, tries, agrees, k - 1)
}

fn change(card: Card, h: Header, given: &[u8], k: usize) -> Numbered
    ensures { result ≡ store_at (touch_if (change_checks (logins card) (command_of h given.now)) card (change_touch (command_of h given.now))) k }
{
    if check_change(card, h, given).is_err() {
        return no_store();
    }
    value_store(pins::pin_named(h), given, k)
}

fn reload(card: Card, h: Header, given: &[u8], k: usize) -> Numbered
    ensures { result ≡ store_at (touch_if (reload_checks (logins card) (command_of h given.now)) card (reload_touch (command_of h given.now))) k }
{
    if check_reload(card, h, given).is_err() {
        return no_store();
    }
    let tries = tries_at(card, USER);
    reload_store(USER, given, tries.limit, k)
}

fn update_binary(card: Card, h: Header, given: &[u8], k: usize) -> Numbered
    requires { length given.now ≤ 255 }
    ensures { result ≡ store_at (deed_if (update_binary_checks card (command_of h given.now)) card (update_binary_deed card (command_of h given.now))) k }
{
    if binary::check_update_binary(card, h, given).is_err() {
        return no_store();
    }
    let place = binary::binary_target(card, h);
    let at = start(card.directory, place) + binary::offset(h);
    update_store(at, given, k)
}

fn update_record(card: Card, area: &[u8], h: Header, given: &[u8], k: usize) -> Numbered
    requires ready { Ready card area.now }
    requires given_len_bound { length given.now ≤ 255 }
    ensures { result ≡ store_at (deed_if (update_record_checks card (record_found card area.now (command_of h [])) (command_of h given.now)) card (update_record_deed card (record_found card area.now (command_of h [])) (command_of h given.now))) k }
{
    let l = record::record_found(card, area, h);
    if record::check_update_record(card, l, h, given).is_err() {
        return no_store();
    }
    let place = record::record_target(card, h);
    let at = start(card.directory, place) + l.start;
    update_store(at, given, k)
}

fn append_record(card: Card, area: &[u8], h: Header, given: &[u8], k: usize) -> Numbered
    requires ready { Ready card area.now }
    requires given_len_bound { length given.now ≤ 255 }
    ensures { result ≡ store_at (deed_if (append_checks card (command_of h given.now)) card (append_deed card (command_of h given.now))) k }
{
    if record::check_append(card, h, given).is_err() {
        return no_store();
    }
    let place = record::record_target(card, h);
    let f = binary::file_of(card, place);
    let next = after_append(f, given.len());
    let at = start(card.directory, place) + next_start(f);
    append_store(f, next, usize::from(place).saturating_sub(1), at, given, k)
}

fn create_file(card: Card, h: Header, given: &[u8], k: usize) -> Numbered
    ensures { result ≡ store_at (deed_if (create_checks card (command_of h given.now)) card (create_deed card (command_of h given.now))) k }
{
    if check_create(card, h, given).is_err() {
        return no_store();
    }
    let directory = card.directory;
    if create::is_folder(given) {
        let x = create::folder_given(h, given);
        return found_store(usize::from(directory.number), x, k);
    }
    let f = create::file_given(card.session.folder, h, given);
    make_store(usize::from(directory.count), end(directory), size(f), f, k)
}

// The command by its name; what shows, selects or asks for a challenge stores nothing.
fn obeyed(ins: Ins, card: Card, area: &[u8], h: Header, given: &[u8], k: usize) -> Numbered
    requires ready { Ready card area.now }
    requires given_len_bound { length given.now ≤ 255 }
    ensures { result ≡ store_at (rest_stores ins card (record_found card area.now (command_of h [])) (command_of h given.now)) k }
{
    match ins {
        Ins::UpdateBinary => update_binary(card, h, given, k),
        Ins::UpdateRecord => update_record(card, area, h, given, k),
        Ins::AppendRecord => append_record(card, area, h, given, k),
        Ins::Verify => verify(card, h, given, k),
        Ins::Authenticate => authenticate(card, h, given, k),
        Ins::ChangePin => change(card, h, given, k),
        Ins::ReloadPin => reload(card, h, given, k),
        Ins::CreateFile => create_file(card, h, given, k),
        Ins::Select
        | Ins::ReadBinary
        | Ins::ReadRecord
        | Ins::GetChallenge
        | Ins::GetResponse
        | Ins::Unlisted => no_store(),
    }
}

// A code (R-9): store 0 before anything is compared, and no store of the file before the code is known to be right.
fn with_code(
    ins: Ins,
    card: Card,
    area: &[u8],
    h: Header,
    given: &[u8],
    covered: &[u8],
    tail: &[u8],
    k: usize,
) -> Numbered
    requires ready { Ready card area.now }
    requires given_len_bound { length given.now ≤ 255 }
    ensures { result ≡ store_at (cond (presented ins card (coded_of h given.now tail.now [])) (coded_stores card (code_given card covered.now tail.now) (rest_stores ins card (record_found card area.now (command_of h [])) (command_of h given.now))) []) k }
{
    if !code::presents_code(ins, card, h, given, tail) {
        return no_store();
    }
    let tries = tries_at(card, TRANSPORT);
    if k == 0 {
        return lowered_store(TRANSPORT, tries);
    }
    if !code::is_code(card, covered, tail) {
        return no_store();
    }
    if k == 1 {
        return tries_store(TRANSPORT, tries.limit);
    }
    obeyed(ins, card, area, h, given, k - 2)
}

// Framing, class, P and case.
fn check_open(ins: Ins, h: Header, given: &[u8], tail: &[u8]) -> Result<(), Refused>
    ensures { result ≡ checked (open_sw ins (coded_of h given.now tail.now [])) }
{
    frame::check_frame(h)?;
    frame::check_class(h)?;
    code::check_front(ins, h, given, tail)
}

fn without_code(
    ins: Ins,
    card: Card,
    area: &[u8],
    h: Header,
    given: &[u8],
    tail: &[u8],
    k: usize,
) -> Numbered
    requires ready { Ready card area.now }
    requires given_len_bound { length given.now ≤ 255 }
    ensures { result ≡ store_at (stores_if (open_sw ins (coded_of h given.now tail.now [])) (rest_stores ins card (record_found card area.now (command_of h [])) (command_of h given.now))) k }
{
    if check_open(ins, h, given, tail).is_err() {
        return no_store();
    }
    obeyed(ins, card, area, h, given, k)
}

fn ruled(ins: Ins, card: Card, area: &[u8], h: Header, cmd: &[u8], k: usize) -> Numbered
    requires ready { Ready card area.now }
    requires h_value { h ≡ head_of cmd.now }
    ensures { result ≡ store_at (plan_stores ins card (record_found card area.now (framed cmd.now)) (framed cmd.now)) k }
{
    let given = frame::given_of(cmd);
    let tail = frame::code_of(cmd);
    if code::takes_code(ins) && h.cla == frame::WITH_CODE {
        let covered = frame::covered_of(cmd);
        return with_code(ins, card, area, h, given, covered, tail, k);
    }
    without_code(ins, card, area, h, given, tail, k)
}

// A served command. GET RESPONSE in mode 1 stores nothing.
pub(crate) fn served(card: Card, area: &[u8], cmd: &[u8], k: usize) -> Numbered
    requires { Ready card area.now }
    ensures { result ≡ store_at (stores_of card area.now cmd.now) k }
{
    let h = frame::head_of(cmd);
    if response::fetches(card.response.mode == 1, h) {
        return no_store();
    }
    let ins = list::listed(h.cla, h.ins);
    ruled(ins, card, area, h, cmd, k)
}

// 2, 3 or 4, by document 01's numbers; 0 where the call is served.
pub(crate) fn refusal(card: Card, area: &[u8], random: &[u8]) -> u8
    ensures { result ≡ refusal card area.now random.now }
{
    if area.len() != AREA_SIZE {
        return 2;
    }
    if random.len() != RANDOM_SIZE {
        return 3;
    }
    if !is_sound(card, area) {
        return 4;
    }
    0
}

// Store number n of a command, from 0, on the card as it is before the command; refused as the command is, and then none is given.
pub fn store(card: Card, area: &[u8], cmd: &[u8], random: &[u8], n: usize) -> Handed
    ensures { result ≡ store card area.now cmd.now random.now n }
{
    let outcome = refusal(card, area, random);
    if outcome != 0 {
        return Handed {
            outcome,
            store: no_store(),
        };
    }
    Handed {
        outcome: 0,
        store: served(card, area, cmd, n),
    }
}
