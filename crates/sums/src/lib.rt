// Alarm records, and their totals for each line and kind (R-12). A public function has no requirement.
#![tactic(auto)]

ghost use Rattle.std.specs.Prelude.{◌≡◌, false, ◌+◌, ◌-◌, ◌*◌, ◌≤◌};
ghost use Rattle.files.specs.Words.{Bounded};
ghost use Rattle.sums.specs.Alarm.{good};
ghost use Rattle.sums.specs.Kept.{no_alarm, plus, sum_of, answer, summed, no_totals, no_batch};

// An alarm record, eight bytes, high bytes first.
#[repr(C)]
#[derive(Clone, Copy)]
pub struct Alarm {
    pub number: u32,
    pub line: u8,
    pub kind: u8,
    pub minutes: u16,
}

// For each line and kind how many alarms, and the sum of their minutes.
#[repr(C)]
#[derive(Clone, Copy)]
pub struct Totals {
    pub counts: [u32; 192],
    pub minutes: [u32; 192],
}

// The totals behind a list of alarms, and whether it was refused.
#[derive(Clone, Copy)]
pub struct Summed {
    pub totals: Totals,
    pub refused: bool,
}

// Line 1 to 32, kind 1 to 6.
#[tactic(auto, unfolding(crate::specs::Alarm::good))]
pub fn is_good(a: Alarm) -> bool
    ensures { result ≡ good a }
{
    matches!(a.line, 1..=32) && matches!(a.kind, 1..=6)
}

// The place of a line and kind.
fn place(line: u8, kind: u8) -> usize
    requires { (1 ≤ line) × (line ≤ 32) × (1 ≤ kind) × (kind ≤ 6) }
    ensures { Bounded 191 ((line - 1) * 6 + (kind - 1)) result }
{
    usize::from(line - 1) * 6 + usize::from(kind - 1)
}

// The totals with one alarm more. One that is not good is passed over; a sum past 32 bits, which 65,535 alarms do not reach, wraps.
pub fn add(t: Totals, a: Alarm) -> Totals
    ensures { result ≡ plus t a }
{
    if !is_good(a) {
        return t;
    }
    let i = place(a.line, a.kind);
    let mut r = t;
    r.counts[i] = r.counts[i].wrapping_add(1);
    r.minutes[i] = r.minutes[i].wrapping_add(u32::from(a.minutes));
    r
}

// The totals of a list of alarms, onto those before. A list of more than 1,000 is refused: the totals come back as they were.
pub fn sum(alarms: &[Alarm], t: Totals) -> Summed
    ensures { result ≡ summed t alarms.now }
{
    if alarms.len() > 1000 {
        return Summed {
            totals: t,
            refused: true,
        };
    }
    let mut totals = t;
    for a in alarms {
        totals = add(totals, *a);
    }
    Summed {
        totals,
        refused: false,
    }
}

// The same of a whole batch, which is never refused, with plain parameters.
pub fn all(batch: [Alarm; 1000], t: Totals) -> Summed
    ensures { result ≡ answer (sum_of t batch) false }
{
    sum(&batch, t)
}

pub fn no_totals() -> Totals
    ensures { result ≡ no_totals }
{
    Totals {
        counts: [0; 192],
        minutes: [0; 192],
    }
}

// An unused place of a batch.
pub fn no_alarm() -> Alarm
    ensures { result ≡ no_alarm }
{
    Alarm {
        number: 0,
        line: 0,
        kind: 0,
        minutes: 0,
    }
}

pub fn no_batch() -> [Alarm; 1000]
    ensures { result ≡ no_batch }
{
    [no_alarm(); 1000]
}
