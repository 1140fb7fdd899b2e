// A run of stores at once: the card is checked once, and each store is three bytes in a buffer.
ghost use Rattle.std.specs.Prelude.{◌≡◌, ◌*◌, ◌%◌, ◌≤◌, length};
ghost use Rattle.power.specs.Plan.{stores_of};
ghost use Rattle.card.specs.Carried.{Ready};
ghost use Rattle.stores.specs.Runs.{three_bytes, most, Laid, stores, Hands};

use crate::Counted;
use crate::call::{refusal, served};
use files::run::store;
use power::Numbered;
use rules::Card;

fn three_bytes(s: Numbered) -> [u8; 3]
    ensures { result ≡ three_bytes s }
{
    let [.., high, low] = s.at.to_be_bytes();
    [high, low, s.byte]
}

// Store 0 alone: that of a presentation must be stored before anything is compared.
fn most(first: u16, room: usize) -> usize
    ensures { result ≡ most first room }
{
    let n = room / 3;
    if first == 0 { n.min(1) } else { n }
}

// At most so many, from the first number on; how many there were.
fn lay(card: Card, area: &[u8], cmd: &[u8], first: u16, most: usize, out: &mut [u8]) -> usize
    requires ready { Ready card area.now }
    requires most_in_bounds { 3 * most ≤ length out.old }
    ensures { Laid (stores_of card area.now cmd.now) first most out.old result out.new }
{
    for k in 0..most {
        let s = served(card, area, cmd, usize::from(first) + k);
        if !s.there {
            return k;
        }
        let three = three_bytes(s);
        store(out, 3 * k, &three);
    }
    most
}

// The stores of a command from a first number on, on the card as it is before the command; refused as the command is, and then none is given.
pub fn stores(
    card: Card,
    area: &[u8],
    cmd: &[u8],
    random: &[u8],
    first: u16,
    out: &mut [u8],
) -> Counted
    ensures { Hands (stores card area.now cmd.now random.now first out.old) result out.new }
{
    let outcome = refusal(card, area, random);
    if outcome != 0 {
        return Counted { outcome, n: 0 };
    }
    let most = most(first, out.len());
    let n = lay(card, area, cmd, first, most, out);
    Counted { outcome: 0, n }
}
