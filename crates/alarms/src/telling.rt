// What is told: the table of the totals, or a refusal.
ghost use Rattle.std.specs.Prelude.{get_or};
ghost use Rattle.alarms.specs.Report.{row, rows, refused};
ghost use Rattle.alarms.specs.Feed.{table_of, told_of, Tells};
ghost use Rattle.digits.specs.Page.{Draws};

use crate::Feed;
use crate::feeding::closed;
use digits::page::{number_field, put_all};
use digits::{NEWLINE, TAB};
use sums::{Totals, all};

// Line, kind, count, minutes, where there is any alarm.
fn put_row(out: &mut [u8], at: usize, i: u32, count: u32, minutes: u32) -> usize
    ensures { Draws (row i count minutes) out.old at result out.new }
{
    if count == 0 {
        return at;
    }
    let a = number_field(out, at, i / 6 + 1, TAB);
    let b = number_field(out, a, i % 6 + 1, TAB);
    let c = number_field(out, b, count, TAB);
    number_field(out, c, minutes, NEWLINE)
}

fn put_rows(out: &mut [u8], at: usize, t: Totals) -> usize
    ensures { Draws (rows (λ i. get_or t.counts i 0) (λ i. get_or t.minutes i 0) 192) out.old at result out.new }
{
    let mut end = at;
    for i in 0..192 {
        end = put_row(out, end, i as u32, t.counts[i], t.minutes[i]);
    }
    end
}

fn put_refusal(out: &mut [u8], at: usize, refusal: u8, number: u32) -> usize
    ensures { Draws (refused refusal number) out.old at result out.new }
{
    let a = number_field(out, at, u32::from(refusal), TAB);
    number_field(out, a, number, NEWLINE)
}

fn put_table(out: &mut [u8], at: usize, t: Totals) -> usize
    ensures { Draws (table_of t) out.old at result out.new }
{
    let a = put_all(out, at, b"line\tkind\tcount\tminutes\n");
    put_rows(out, a, t)
}

// The report on all that was read, or its refusal and the line's number, as far as there is room, which OUT_SIZE bytes are.
pub fn told(feed: Feed, out: &mut [u8]) -> usize
    ensures { Tells (told_of feed) out.old result out.new }
{
    let last = closed(feed);
    let refusal = last.scan.refusal;
    if refusal != 0 {
        return put_refusal(out, 0, refusal, last.scan.lines);
    }
    put_table(out, 0, all(last.batch, last.totals).totals)
}
