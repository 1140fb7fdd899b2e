// A text read in pieces: alarms are held, at most 1,000 at a time, and then summed.
ghost use Rattle.std.specs.Prelude.{◌≡◌};
ghost use Rattle.alarms.specs.Feed.{fed_all, start, closed};

use crate::scanning::{DONE, alarm_of, is_open, scanned};
use crate::{Feed, Scan};
use digits::NEWLINE;
use sums::{all, no_batch, no_totals};

// Nothing is read yet.
pub fn start() -> Feed
    ensures { result ≡ start }
{
    Feed {
        scan: Scan {
            at: 0,
            word: 0,
            lines: 0,
            refusal: 0,
        },
        held: 0,
        batch: no_batch(),
        totals: no_totals(),
    }
}

// The next piece of the text.
pub fn fed(mut feed: Feed, piece: &[u8]) -> Feed
    ensures { result ≡ fed_all feed piece.now }
{
    for &b in piece {
        feed.scan = scanned(feed.scan, b);
        if feed.scan.at != DONE {
            continue;
        }
        if feed.held >= 1000 {
            feed.totals = all(feed.batch, feed.totals).totals;
            feed.batch = no_batch();
            feed.held = 0;
        }
        feed.batch[feed.held] = alarm_of(feed.scan.word);
        feed.held += 1;
    }
    feed
}

// The text ends; a last line needs no newline.
#[tactic(auto, unfolding(crate::specs::Feed::closed))]
pub fn closed(feed: Feed) -> Feed
    ensures { result ≡ closed feed }
{
    if is_open(feed.scan) {
        return fed(feed, &[NEWLINE]);
    }
    feed
}
