// The writer and the reader, and the converters between the two forms.
ghost use Rattle.std.specs.Prelude.{◌≡◌, true, length};
ghost use Rattle.files.specs.Create.{area_size};
ghost use Rattle.rules.specs.Sound.{sound};
ghost use Rattle.rules.specs.Words.{same};
ghost use Rattle.texts.specs.Forms.{is_new};
ghost use Rattle.texts.specs.Text.{new, text, of_form};
ghost use Rattle.texts.specs.Laws.{longest};
ghost use Rattle.texts.specs.Calls.{to_text, Writes, from_text, Reads, converted, to_new, to_old};

use crate::load::card_in;
use crate::text::put_card;
use crate::{Form, TEXT_SIZE};
use card::AREA_SIZE;
use card::issue::blank;
use card::sound::is_sound;
use card::state::answer;
use card::words::same;
use files::run::{show, store};
use rules::{Answer, Card};

// The text of a sound card is this one. The page is lent, here and below: a call has room for one, since the stack is small.
fn is_text(form: Form, page: &mut [u8], card: Card, area: &[u8], s: &[u8]) -> bool
    requires sound { sound card area.now ≡ true }
    requires form { of_form (is_new form) card ≡ true }
    requires page { length page.old ≡ longest new }
    ensures { result ≡ same s.now (text (is_new form) card area.now) }
{
    let n = put_card(form, page, card, area);
    same(s, &page[..n])
}

// The text of a sound card, into the caller's buffer; 10 where it is too short.
fn hand_over(form: Form, page: &mut [u8], card: Card, area: &[u8], out: &mut [u8]) -> Answer
    requires area { length area.now ≡ area_size }
    requires sound { sound card area.now ≡ true }
    requires form { of_form (is_new form) card ≡ true }
    requires page { length page.old ≡ longest new }
    ensures { Writes (to_text (is_new form) card area.now out.old) result out.new }
{
    let n = put_card(form, page, card, area);
    if !show(page, 0, n, out) {
        return answer(10, card, 0);
    }
    answer(0, card, n)
}

// The writer. Refusals, in order: 2, 4, 10, with nothing written.
pub fn to_text(card: Card, area: &[u8], out: &mut [u8]) -> Answer
    ensures { Writes (to_text new card area.now out.old) result out.new }
{
    if area.len() != AREA_SIZE {
        return answer(2, card, 0);
    }
    if !is_sound(card, area) {
        return answer(4, card, 0);
    }
    let mut page = [0u8; TEXT_SIZE];
    hand_over(Form::New, &mut page, card, area, out)
}

// The reader. Refusals, in order: 2, 11, with a blank state and the area as it was.
pub fn from_text(area: &mut [u8], s: &[u8]) -> Answer
    ensures { Reads (from_text new s.now area.old) result area.new }
{
    if area.len() != AREA_SIZE {
        return answer(2, blank(), 0);
    }
    let mut image = [0u8; AREA_SIZE];
    let card = card_in(Form::New, s, &mut image);
    if !is_sound(card, &image) {
        return answer(11, blank(), 0);
    }
    let mut page = [0u8; TEXT_SIZE];
    if !is_text(Form::New, &mut page, card, &image, s) {
        return answer(11, blank(), 0);
    }
    store(area, 0, &image);
    answer(0, card, 0)
}

// The card has a text of the form.
fn of_form(form: Form, card: Card) -> bool
    ensures { result ≡ of_form (is_new form) card }
{
    match form {
        Form::New => true,
        Form::Old => card.directory.number == 0,
    }
}

// Refusals, in order: 11, 13, 10, with nothing written. One page serves both texts.
fn convert(given: Form, wanted: Form, s: &[u8], out: &mut [u8]) -> Answer
    ensures { Writes (converted (is_new given) (is_new wanted) s.now out.old) result out.new }
{
    let mut image = [0u8; AREA_SIZE];
    let card = card_in(given, s, &mut image);
    if !is_sound(card, &image) {
        return answer(11, blank(), 0);
    }
    let mut page = [0u8; TEXT_SIZE];
    if !is_text(given, &mut page, card, &image, s) {
        return answer(11, blank(), 0);
    }
    if !of_form(wanted, card) {
        return answer(13, card, 0);
    }
    // As in hand_over, which would take the card once more onto the stack.
    let m = put_card(wanted, &mut page, card, &image);
    if !show(&page, 0, m, out) {
        return answer(10, card, 0);
    }
    answer(0, card, m)
}

// Old to new.
pub fn to_new(s: &[u8], out: &mut [u8]) -> Answer
    ensures { Writes (to_new s.now out.old) result out.new }
{
    convert(Form::Old, Form::New, s, out)
}

// New to old.
pub fn to_old(s: &[u8], out: &mut [u8]) -> Answer
    ensures { Writes (to_old s.now out.old) result out.new }
{
    convert(Form::New, Form::Old, s, out)
}
