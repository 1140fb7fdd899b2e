// The main board's side of a code: its lengths, and the blocks that it is worked out from.
ghost use Rattle.std.specs.Prelude.{◌≡◌, take};
ghost use Rattle.rules.specs.Words.{filled};
ghost use Rattle.limpetnook.specs.Board.{good_lengths};

use files::run::show;

pub(crate) const CODE_SIZE: usize = 4;

// A key of 16 bytes, a challenge of 4, 8 or 16, a code of 4.
pub(crate) fn good_lengths(key: usize, challenge: usize, code: usize) -> bool
    ensures { result ≡ good_lengths key challenge code }
{
    key == 16 && matches!(challenge, 4 | 8 | 16) && code == CODE_SIZE
}

// Filled with 00 to sixteen bytes; bytes past them are left out. The same in `card` is private to it.
pub(crate) fn block_of(bytes: &[u8]) -> [u8; 16]
    ensures { result ≡ filled (take 16 bytes.now) }
{
    let mut out = [0u8; 16];
    let n = bytes.len().min(16);
    show(bytes, 0, n, &mut out);
    out
}
