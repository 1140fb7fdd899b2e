// The store of a command that is asked for by its number (R-10). Here are those of each kind of change; what is `requires`d of numbers keeps sums from wrapping.
#![tactic(auto)]

ghost use Rattle.std.specs.Prelude.{◌≡◌, [], ◌∷◌, ◌++◌, cond, ◌+◌, ◌-◌, ◌*◌, ◌≤◌, ◌<◌, length, get_or};
ghost use Rattle.files.specs.Words.{Bounded};
ghost use Rattle.files.specs.Part.{zeros};
ghost use Rattle.files.specs.State.{emptied, file_bytes, folder_bytes};
ghost use Rattle.files.specs.Record as records;
ghost use Rattle.rules.specs.State.{how_many};
ghost use Rattle.power.specs.Store.{tries_left, entry_byte, file_count, folder_byte, folder_count, area_byte, row};
ghost use Rattle.power.specs.Journal.{credential, entry, value_bytes, known_bytes, journaled};
ghost use Rattle.power.specs.Plan.{is_full, oldest_goes};
ghost use Rattle.power.specs.Address.{credential_size, entry_size, no_store, store_to, a_store, store_at};
ghost use Rattle.stores.specs.Numbers.{only_at, turn, run_at};

pub mod call; // call.rt: the store of a command that is asked for
pub mod run; // run.rt: a run of them at once

use files::record::lead;
use files::sizes::{VARIABLE, count};
use files::{File, Folder};
use power::Numbered;
use rules::Tries;

// What the call hands over: its outcome by document 01's number, and the store.
#[derive(Clone, Copy)]
pub struct Handed {
    pub outcome: u8,
    pub store: Numbered,
}

// The same for a run of stores: how many were handed over.
#[derive(Clone, Copy)]
pub struct Counted {
    pub outcome: u8,
    pub n: usize,
}

// ---- where bytes lie, as C lays the card out, with the area behind it

// A credential: its value, the value's length, the tries left, the limit.
const CREDENTIAL_SIZE: usize = 19;

const LENGTH: usize = 16;

const LEFT: usize = 17;

// A file's entry; from HELD on stands what the file knows of its records.
const FILES_AT: usize = 76;

const ENTRY_SIZE: usize = 12;

const HELD: usize = 7;

const KNOWN_SIZE: usize = 4;

const COUNT_AT: usize = 268;

const FOLDERS_AT: usize = 269;

const FOLDER_SIZE: usize = 3;

const NUMBER_AT: usize = 281;

// What the journal is about, a credential's number plus 1 or a file's place plus 16, and behind it its bytes.
const JOURNAL_AT: usize = 563;

const OF_CREDENTIAL: usize = 1;

const OF_FILE: usize = 16;

const CARD_SIZE: usize = 581;

fn a_store(at: usize, byte: u8) -> Numbered
    ensures { result ≡ store_to at byte }
{
    Numbered {
        there: true,
        at,
        byte,
    }
}

pub(crate) fn no_store() -> Numbered
    ensures { result ≡ no_store }
{
    Numbered {
        there: false,
        at: 0,
        byte: 0,
    }
}

// Each table has its own function: what keeps its sums from wrapping is its own.
fn credential_store(n: usize, i: usize, byte: u8) -> Numbered
    requires { (n < how_many) × (i < credential_size) }
    ensures { result ≡ store_to (n * credential_size + i) byte }
{
    a_store(n * CREDENTIAL_SIZE + i, byte)
}

pub(crate) fn tries_store(n: usize, left: u8) -> Numbered
    requires { n < how_many }
    ensures { result ≡ a_store (tries_left n left) }
{
    credential_store(n, LEFT, left)
}

fn entry_store(place: usize, i: usize, byte: u8) -> Numbered
    requires { (place < 16) × (i < entry_size) }
    ensures { result ≡ a_store (entry_byte place i byte) }
{
    a_store(FILES_AT + place * ENTRY_SIZE + i, byte)
}

fn area_store(at: usize, byte: u8) -> Numbered
    requires { at ≤ 4000000 }
    ensures { result ≡ a_store (area_byte at byte) }
{
    a_store(CARD_SIZE + at, byte)
}

// Of a list of one store.
fn only(s: Numbered, k: usize) -> Numbered
    ensures { result ≡ only_at s k }
{
    if k == 0 { s } else { no_store() }
}

// ---- a change by the journal

// Of n bytes the one that store k is about.
fn turn(n: usize, k: usize) -> usize
    requires { (1 ≤ n) × (n ≤ 17) }
    ensures { Bounded (n - 1) (turn n k) result }
{
    if k < n {
        return k;
    }
    k.saturating_sub(n + 1).min(n - 1)
}

// n bytes into the journal, what they are, n bytes over the target, that it is nothing, n times 00: store k by that byte and by what puts it over the target.
fn run_store(what: u8, n: usize, byte: u8, target: Numbered, k: usize) -> Numbered
    requires { n ≤ 17 }
    ensures { result ≡ run_at what n byte target k }
{
    if k < n {
        return a_store(JOURNAL_AT + 1 + k, byte);
    }
    if k == n {
        return a_store(JOURNAL_AT, what);
    }
    if k < 2 * n + 1 {
        return target;
    }
    if k == 2 * n + 1 {
        return a_store(JOURNAL_AT, 0);
    }
    if k < 3 * n + 2 {
        return a_store(JOURNAL_AT + 1 + (k - (2 * n + 2)), 0);
    }
    no_store()
}

// ---- a new value of a credential

const VALUE_SIZE: usize = 17;

const VALUE_STORES: usize = 53;

// Byte i of a value filled with 00, with its length behind it.
fn value_byte(given: &[u8], i: usize) -> u8
    requires { length given.now ≤ 16 }
    ensures { result ≡ get_or (value_bytes given.now) i 0 }
{
    if i == LENGTH {
        return given.len() as u8;
    }
    if i < given.len() { given[i] } else { 0 }
}

pub(crate) fn value_store(n: usize, given: &[u8], k: usize) -> Numbered
    requires { (n < how_many) × (length given.now ≤ 16) }
    ensures { result ≡ store_at (journaled (credential n) (value_bytes given.now)) k }
{
    let i = turn(VALUE_SIZE, k);
    let byte = value_byte(given, i);
    let target = credential_store(n, i, byte);
    run_store((n + OF_CREDENTIAL) as u8, VALUE_SIZE, byte, target, k)
}

// And then all tries.
pub(crate) fn reload_store(n: usize, given: &[u8], limit: u8, k: usize) -> Numbered
    requires { (n < how_many) × (length given.now ≤ 16) }
    ensures { result ≡ store_at (journaled (credential n) (value_bytes given.now) ++ (tries_left n limit ∷ [])) k }
{
    if k < VALUE_STORES {
        return value_store(n, given, k);
    }
    only(tries_store(n, limit), k - VALUE_STORES)
}

// ---- a presentation

// One try less: the value presented is no argument.
pub(crate) fn lowered_store(n: usize, tries: Tries) -> Numbered
    requires { n < how_many }
    ensures { result ≡ a_store (tries_left n (tries.left - 1)) }
{
    tries_store(n, tries.lowered().left)
}

// And then all tries, where the comparison agrees.
pub(crate) fn restored_store(n: usize, tries: Tries, agrees: bool, k: usize) -> Numbered
    requires { n < how_many }
    ensures { result ≡ store_at (cond agrees (tries_left n tries.limit ∷ []) []) k }
{
    if !agrees {
        return no_store();
    }
    only(tries_store(n, tries.limit), k)
}

// ---- an update, and a new record

// Bytes from an index of the area on.
pub(crate) fn update_store(at: usize, given: &[u8], k: usize) -> Numbered
    requires { (at ≤ 2000000) × (length given.now ≤ 255) }
    ensures { result ≡ store_at (row area_byte at given.now) k }
{
    if k < given.len() {
        area_store(at + k, given[k])
    } else {
        no_store()
    }
}

// What a file knows of its records.
fn known_bytes(f: File) -> [u8; KNOWN_SIZE]
    ensures { result ≡ known_bytes f }
{
    [f.held, f.newest, f.used1, f.used2]
}

// In the form of `value_store`: a function that takes both tables would be longer than the two.
fn known_store(place: usize, f: File, k: usize) -> Numbered
    requires { place < 16 }
    ensures { result ≡ store_at (journaled (entry place) (known_bytes f)) k }
{
    let i = turn(KNOWN_SIZE, k);
    let byte = known_bytes(f)[i];
    let target = entry_store(place, HELD + i, byte);
    run_store((place + OF_FILE) as u8, KNOWN_SIZE, byte, target, k)
}

// A 2E file that is full.
fn is_full(f: File) -> bool
    ensures { result ≡ is_full f }
{
    f.kind != VARIABLE && count(f) <= usize::from(f.held)
}

// Byte i of a record as it is stored, in a 2C file behind its length.
fn record_byte(f: File, given: &[u8], i: usize) -> u8
    requires { (length given.now ≤ 255) × (i < records.lead f + length given.now) }
    ensures { result ≡ get_or (records.entry f given.now) i 0 }
{
    let n = lead(f);
    if i < n {
        return given.len() as u8;
    }
    given[i - n]
}

// A record's bytes, and then what the file knows of its records.
fn record_store(f: File, next: File, place: usize, at: usize, given: &[u8], k: usize) -> Numbered
    requires { (place < 16) × (at ≤ 2000000) × (length given.now ≤ 255) }
    ensures { result ≡ store_at (row area_byte at (records.entry f given.now) ++ journaled (entry place) (known_bytes next)) k }
{
    let n = lead(f) + given.len();
    if k < n {
        return area_store(at + k, record_byte(f, given, k));
    }
    known_store(place, next, k - n)
}

// In a full 2E file the oldest record goes before the new one is stored over it.
pub(crate) fn append_store(
    f: File,
    next: File,
    place: usize,
    at: usize,
    given: &[u8],
    k: usize,
) -> Numbered
    requires { (place < 16) × (at ≤ 2000000) × (length given.now ≤ 255) }
    ensures { result ≡ store_at (oldest_goes f place ++ (row area_byte at (records.entry f given.now) ++ journaled (entry place) (known_bytes next))) k }
{
    if !is_full(f) {
        return record_store(f, next, place, at, given, k);
    }
    if k == 0 {
        return entry_store(place, HELD, f.held.saturating_sub(1));
    }
    record_store(f, next, place, at, given, k - 1)
}

// ---- a new file, and a new directory

// An entry whose file holds no record.
fn new_bytes(f: File) -> [u8; ENTRY_SIZE]
    ensures { result ≡ file_bytes (emptied f) }
{
    [
        f.fid1, f.fid2, f.kind, f.size1, f.size2, f.read, f.write, 0, 0, 0, 0, f.folder,
    ]
}

// 00 over its bytes, its entry after the last, the number of files.
pub(crate) fn make_store(count: usize, end: usize, size: usize, f: File, k: usize) -> Numbered
    requires { (count < 16) × (end ≤ 2000000) × (size ≤ 2000000) }
    ensures { result ≡ store_at (row area_byte end (zeros size) ++ (row (entry_byte count) 0 (file_bytes (emptied f)) ++ (file_count (count + 1) ∷ []))) k }
{
    if k < size {
        return area_store(end + k, 0);
    }
    let i = k - size;
    if i < ENTRY_SIZE {
        entry_store(count, i, new_bytes(f)[i])
    } else {
        only(a_store(COUNT_AT, (count + 1) as u8), i - ENTRY_SIZE)
    }
}

fn folder_bytes(x: Folder) -> [u8; FOLDER_SIZE]
    ensures { result ≡ folder_bytes x }
{
    [x.fid1, x.fid2, x.right]
}

// Its bytes after the last, the number of directories.
pub(crate) fn found_store(number: usize, x: Folder, k: usize) -> Numbered
    requires { number < 4 }
    ensures { result ≡ store_at (row (folder_byte number) 0 (folder_bytes x) ++ (folder_count (number + 1) ∷ [])) k }
{
    if k < FOLDER_SIZE {
        a_store(FOLDERS_AT + number * FOLDER_SIZE + k, folder_bytes(x)[k])
    } else {
        only(a_store(NUMBER_AT, (number + 1) as u8), k - FOLDER_SIZE)
    }
}
