// A line of text, read byte by byte.
ghost use Rattle.std.specs.Prelude.{◌≡◌};
ghost use Rattle.sums.specs.Alarm.{alarm_of};
ghost use Rattle.alarms.specs.Feed.{begun, name_after, digit_after, place_after, word_after, in_line, refusal_of, next_line, done_or_bad, line_end, scanned, is_open};

use crate::Scan;
use digits::{NEWLINE, TAB, value};
use sums::{Alarm, is_good};

pub const AFTER_TAB: u8 = 33;

pub const FULL: u8 = 49;

pub const BAD: u8 = 50;

pub const DONE: u8 = 51;

// Eight bytes as one number.
#[tactic(auto, unfolding(sums::specs::Alarm::alarm_of))]
pub fn alarm_of(w: u64) -> Alarm
    ensures { result ≡ alarm_of w }
{
    let [a, b, c, d, line, kind, high, low] = w.to_be_bytes();
    Alarm {
        number: u32::from_be_bytes([a, b, c, d]),
        line,
        kind,
        minutes: u16::from_be_bytes([high, low]),
    }
}

// Behind a line that is done another begins.
#[tactic(auto, unfolding(crate::specs::Feed::begun))]
fn begun(at: u8) -> u8
    ensures { result ≡ begun at }
{
    if at == DONE { 0 } else { at }
}

#[tactic(auto, unfolding(crate::specs::Feed::name_after))]
fn name_after(at: u8, b: u8) -> u8
    ensures { result ≡ name_after at b }
{
    match b {
        TAB if at == 0 => BAD,
        TAB => AFTER_TAB,
        _ if at < 32 => at + 1,
        _ => BAD,
    }
}

#[tactic(auto, unfolding(crate::specs::Feed::digit_after))]
fn digit_after(at: u8, v: u8) -> u8
    ensures { result ≡ digit_after at v }
{
    if at < FULL && v < 16 { at + 1 } else { BAD }
}

// One byte further.
#[tactic(auto, unfolding(crate::specs::Feed::place_after))]
fn place_after(at: u8, b: u8, v: u8) -> u8
    ensures { result ≡ place_after at b v }
{
    if at < AFTER_TAB {
        name_after(at, b)
    } else {
        digit_after(at, v)
    }
}

#[tactic(auto, unfolding(crate::specs::Feed::word_after))]
fn word_after(at: u8, w: u64, v: u8) -> u64
    ensures { result ≡ word_after at w v }
{
    if at < AFTER_TAB {
        return 0;
    }
    (w << 4) | u64::from(v & 15)
}

fn in_line(s: Scan, b: u8) -> Scan
    ensures { result ≡ in_line s b }
{
    let v = value(b);
    let from = begun(s.at);
    Scan {
        at: place_after(from, b, v),
        word: word_after(from, s.word, v),
        ..s
    }
}

// 14 bad line, 15 too many alarms, 0 for none; n is the line's number.
#[tactic(auto, unfolding(crate::specs::Feed::refusal_of))]
fn refusal_of(ok: bool, n: u32) -> u8
    ensures { result ≡ refusal_of ok n }
{
    match (ok, n) {
        (false, _) => 14,
        (true, ..=65535) => 0,
        (true, _) => 15,
    }
}

fn next_line(n: u32) -> u32
    ensures { result ≡ next_line n }
{
    n.saturating_add(1).min(65536)
}

#[tactic(auto, unfolding(crate::specs::Feed::done_or_bad))]
fn done_or_bad(refusal: u8) -> u8
    ensures { result ≡ done_or_bad refusal }
{
    if refusal == 0 { DONE } else { BAD }
}

fn line_end(s: Scan) -> Scan
    ensures { result ≡ line_end s }
{
    let ok = s.at == FULL && is_good(alarm_of(s.word));
    let lines = next_line(s.lines);
    let refusal = refusal_of(ok, lines);
    Scan {
        at: done_or_bad(refusal),
        lines,
        refusal,
        ..s
    }
}

// The next byte. Behind a refusal nothing is read.
#[tactic(auto, unfolding(crate::specs::Feed::scanned))]
pub fn scanned(s: Scan, b: u8) -> Scan
    ensures { result ≡ scanned s b }
{
    if s.refusal != 0 {
        s
    } else if b == NEWLINE {
        line_end(s)
    } else {
        in_line(s, b)
    }
}

// A line is begun.
#[tactic(auto, unfolding(crate::specs::Feed::is_open))]
pub fn is_open(s: Scan) -> bool
    ensures { result ≡ is_open s }
{
    begun(s.at) != 0
}
