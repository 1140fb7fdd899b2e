// A store as C is given it.
ghost use Rattle.std.specs.Prelude.{◌≡◌};
ghost use Rattle.limpetnook.specs.Place.{slip_of, slip_from};

use crate::Slip;
use rules::Card;
use stores::Handed;
use stores::call::store;

// 16 bits hold every address, so that nothing of it is lost.
impl From<Handed> for Slip {
    ghost from_gives = { λ h s. s ≡ slip_from h };

    fn from(h: Handed) -> Slip {
        Slip {
            outcome: h.outcome,
            address: (h.store.at % 65536) as u16,
            value: h.store.byte,
            given: u8::from(h.store.there),
        }
    }
}

pub(crate) fn slip(card: Card, area: &[u8], cmd: &[u8], random: &[u8], n: usize) -> Slip
    ensures { result ≡ slip_of card area.now cmd.now random.now n }
{
    Slip::from(store(card, area, cmd, random, n))
}
