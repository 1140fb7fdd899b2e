// What is made of a card after a cut (R-10).
ghost use Rattle.std.specs.Prelude.{◌≡◌, ◌<◌};
ghost use Rattle.files.specs.State.{blank_file, blank_folder, with_files, with_folders};
ghost use Rattle.rules.specs.State.{how_many, with_journal};
ghost use Rattle.power.specs.Journal.{credential, entry, is_pin, is_entry, with_value_of, redo, left_by_cut};
ghost use Rattle.power.specs.Recovery.{trim, redone, tidied, recover};

use crate::AREA_SIZE;
use crate::sound::{all_zero, is_sound};
use crate::state::{
    answer, filled, no_journal, no_session, with_directory, with_session, with_waiting,
};
use files::state::{blank_file, new_folder};
use files::{Directory, File};
use rules::{Answer, Card, Credential, Journal};

// What the journal is about: a PIN, by its number plus one, or what a file knows of its records, by its place plus 16.
fn is_pin(what: u8) -> bool
    ensures { result ≡ is_pin what }
{
    matches!(what, 2 | 3)
}

fn is_entry(what: u8) -> bool
    ensures { result ≡ is_entry what }
{
    matches!(what, 16..=31)
}

// A cut can leave such a journal; any other is damage.
#[tactic(auto, unfolding(power::specs::Journal::left_by_cut))]
fn left_by_cut(j: Journal, count: u8) -> bool
    ensures { result ≡ left_by_cut j count }
{
    let what = j.what;
    let some = !all_zero(&j.bytes[..4]);
    let there = (usize::from(what) < 16 + usize::from(count)) & some;
    (what == 0) | is_pin(what) | ((16 <= what) & there)
}

// The credential with the value that the journal holds.
fn value_in(j: Journal, x: Credential) -> Credential
    ensures { result ≡ with_value_of j.bytes x }
{
    Credential {
        value: filled(&j.bytes),
        len: j.bytes[16],
        ..x
    }
}

fn redo_credential(card: Card, n: usize) -> Card
    requires { n < how_many }
    ensures { result ≡ redo (credential n) card.journal.bytes card }
{
    let mut next = card;
    next.credentials[n] = value_in(card.journal, card.credentials[n]);
    next
}

fn redo_entry(card: Card, place: usize) -> Card
    requires { place < 16 }
    ensures { result ≡ redo (entry place) card.journal.bytes card }
{
    let bytes = card.journal.bytes;
    let mut directory = card.directory;
    directory.files[place] = File {
        held: bytes[0],
        newest: bytes[1],
        used1: bytes[2],
        used2: bytes[3],
        ..directory.files[place]
    };
    with_directory(card, directory)
}

fn redone(card: Card) -> Card
    ensures { result ≡ redone card }
{
    let what = card.journal.what;
    if is_pin(what) {
        redo_credential(card, usize::from(what - 1))
    } else if is_entry(what) {
        redo_entry(card, usize::from(what - 16))
    } else {
        card
    }
}

// From an index on blank.
fn trimmed<T: Copy, const N: usize>(xs: [T; N], count: u8, blank: T) -> [T; N]
    ensures { result ≡ trim blank xs count }
{
    let mut next = xs;
    for i in usize::from(count)..N {
        next[i] = blank;
    }
    next
}

// Places past the last file are blank.
fn files_trimmed(d: Directory) -> Directory
    ensures { result ≡ with_files d (trim blank_file d.files d.count) }
{
    Directory {
        files: trimmed(d.files, d.count, blank_file()),
        ..d
    }
}

// So are those past the last directory.
fn folders_trimmed(d: Directory) -> Directory
    ensures { result ≡ with_folders d (trim blank_folder d.folders d.number) }
{
    Directory {
        folders: trimmed(d.folders, d.number, new_folder(0, 0, 0)),
        ..d
    }
}

// Set in a copy: an update of the struct puts each other part on the stack once more.
fn with_journal(card: Card, journal: Journal) -> Card
    ensures { result ≡ with_journal card journal }
{
    let mut next = card;
    next.journal = journal;
    next
}

#[tactic(auto, unfolding(power::specs::Recovery::tidied))]
fn tidied(card: Card) -> Card
    ensures { result ≡ tidied card }
{
    let made = redone(card);
    let directory = folders_trimmed(files_trimmed(made.directory));
    let next = with_journal(with_directory(made, directory), no_journal());
    with_waiting(with_session(next, no_session()), &[])
}

// 2 data area not 4,096 bytes, then 4 where no cut leaves such a journal or no sound card results, both leaving all as it was.
#[tactic(auto, unfolding(power::specs::Recovery::recover))]
pub fn recover(card: Card, area: &[u8]) -> Answer
    ensures { result ≡ recover card area.now }
{
    if area.len() != AREA_SIZE {
        return answer(2, card, 0);
    }
    if !left_by_cut(card.journal, card.directory.count) {
        return answer(4, card, 0);
    }
    let next = tidied(card);
    if !is_sound(next, area) {
        return answer(4, card, 0);
    }
    answer(0, next, 0)
}
