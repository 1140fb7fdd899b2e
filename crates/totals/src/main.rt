// Reads alarm records as lines of text from standard input, and prints the totals for each line and kind.
#![tactic(auto)]

ghost use Rattle.std.specs.Prelude.{◌≤◌, length};
ghost use Rattle.totals.specs.Reading.{Follows, Reported};

use alarms::feeding::{fed, start};
use alarms::telling::told;
use alarms::{Feed, OUT_SIZE};
use std::io::Read;

// As many bytes are asked for at once.
const CHUNK_SIZE: usize = 65536;

// Reads all there is, or up to a refusal. A proved loop has to end, and nothing says that the input does: no run uses up as many turns.
fn read_all(input: &mut impl Read, first: Feed, chunk: &mut [u8]) -> Feed
    ensures { Follows first result }
{
    let mut feed = first;
    for _ in 0..u64::MAX {
        let n = input.read(chunk).unwrap_or(0);
        feed = fed(feed, &chunk[..n]);
        if n == 0 || feed.scan.refusal != 0 {
            break;
        }
    }
    feed
}

// Reads all there is, and puts the report down.
fn run(input: &mut impl Read, chunk: &mut [u8], out: &mut [u8]) -> usize
    requires { 16384 ≤ length out.old }
    ensures { Reported out.new result }
{
    let feed = read_all(input, start(), chunk);
    told(feed, out)
}

fn main(rt: HostRuntime) {
    let mut chunk = [0u8; CHUNK_SIZE];
    let mut out = [0u8; OUT_SIZE];
    let mut input = rt.stdin();
    let n = run(&mut input, &mut chunk, &mut out);
    let _ = rt.write_all(&out[..n]);
}
