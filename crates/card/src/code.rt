// Codes on the bus (R-9): the five commands that may have one, P and case before it, and its check.
ghost use Rattle.std.specs.Prelude.{◌≡◌, ◌&&◌, [], ◌∷◌};
ghost use Rattle.rules.specs.declared.Card.{Card};
ghost use Rattle.rules.specs.Words.{or_else, first};
ghost use Rattle.rules.specs.State.{transport, value_of, credential, login, logins, challenge_in, challenge};
ghost use Rattle.rules.specs.Frame.{frame_sw, class_sw};
ghost use Rattle.rules.specs.Pins.{tries_sw};
ghost use Rattle.rules.specs.Device.{challenge_sw};
ghost use Rattle.rules.specs.List.{rule};
ghost use Rattle.rules.specs.Code.{presents_code};
ghost use Rattle.card.specs.Checks.{checked};
ghost use Rattle.card.specs.Head.{coded_of, command_of};
ghost use Rattle.card.specs.Credentials.{only_tries};
ghost use Rattle.card.specs.Parts.{code_under};
ghost use Rattle.card.specs.Coded.{takes_code, front, code_given, Hears};

use crate::binary::check_binary_p;
use crate::device::{challenge_block, check_challenge};
use crate::frame::{WITH_CODE, check_class, check_frame, check_read_case, check_write_case};
use crate::pins::{check_tries, same, tried};
use crate::record::{check_append_p, check_record_p};
use crate::state::tries_at;
use crate::words::unless;
use crate::{Header, Heard, Refused};
use codes::mac;
use rules::{Card, Credential, Ins, Session, TRANSPORT, Tries};

// Those that read, update and append.
#[tactic(auto, unfolding(rules::specs::List::rule))]
pub fn takes_code(ins: Ins) -> bool
    ensures { result ≡ takes_code (rule ins) }
{
    matches!(
        ins,
        Ins::ReadBinary
            | Ins::UpdateBinary
            | Ins::ReadRecord
            | Ins::UpdateRecord
            | Ins::AppendRecord
    )
}

// P and case before the code; the others have their own checks in their own place.
#[tactic(auto, unfolding(crate::specs::Coded::front, rules::specs::List::rule))]
pub fn check_front(ins: Ins, h: Header, given: &[u8], code: &[u8]) -> Result<(), Refused>
    ensures { result ≡ checked (first (front ins (coded_of h given.now code.now []))) }
{
    match ins {
        Ins::ReadBinary => {
            check_binary_p(h)?;
            check_read_case(h, given, code)
        }
        Ins::UpdateBinary => {
            check_binary_p(h)?;
            check_write_case(h, given)
        }
        Ins::ReadRecord => {
            check_record_p(h)?;
            check_read_case(h, given, code)
        }
        Ins::UpdateRecord => {
            check_record_p(h)?;
            check_write_case(h, given)
        }
        Ins::AppendRecord => {
            check_append_p(h)?;
            check_write_case(h, given)
        }
        Ins::Select
        | Ins::Verify
        | Ins::Authenticate
        | Ins::ChangePin
        | Ins::ReloadPin
        | Ins::CreateFile
        | Ins::GetChallenge
        | Ins::GetResponse
        | Ins::Unlisted => Ok(()),
    }
}

// Every check up to the comparison.
fn check_presented(
    ins: Ins,
    card: Card,
    h: Header,
    given: &[u8],
    code: &[u8],
) -> Result<(), Refused>
    ensures { result ≡ checked (first (frame_sw (coded_of h given.now code.now []) ∷ class_sw (coded_of h given.now code.now []) ∷ first (front ins (coded_of h given.now code.now [])) ∷ tries_sw (login transport card) ∷ challenge_sw (challenge card) ∷ [])) }
{
    check_frame(h)?;
    check_class(h)?;
    check_front(ins, h, given, code)?;
    check_tries(tries_at(card, TRANSPORT))?;
    check_challenge(card.session)
}

// A code is presented: the command may have one and has one, and every check up to the comparison passes.
#[tactic(auto, unfolding(rules::specs::Code::presents_code))]
pub fn presents_code(ins: Ins, card: Card, h: Header, given: &[u8], code: &[u8]) -> bool
    ensures { result ≡ (takes_code (rule ins) && presents_code (front ins (coded_of h given.now code.now [])) (logins card) (challenge card) (coded_of h given.now code.now [])) }
{
    let passes = check_presented(ins, card, h, given, code).is_ok();
    takes_code(ins) & (h.cla == WITH_CODE) & passes
}

// What is given is the code of what it covers, under all sixteen bytes of a key.
fn is_code_under(key: [u8; 16], session: Session, covered: &[u8], code: &[u8]) -> bool
    ensures { result ≡ code_under key session covered.now code.now }
{
    let start = challenge_block(session);
    same(mac(key, start, covered), 4, code)
}

// The same under the transport key.
pub fn is_code(card: Card, covered: &[u8], code: &[u8]) -> bool
    ensures { result ≡ code_given card covered.now code.now }
{
    is_code_under(
        card.credentials[TRANSPORT].value,
        card.session,
        covered,
        code,
    )
}

// What is asked of the transport key and the challenge, behind P and case.
fn check_key(front: Result<(), Refused>, tries: Tries, session: Session) -> Result<(), Refused>
    ensures { (sw : _) → front ≡ checked sw → result ≡ checked (or_else sw (or_else (tries_sw (only_tries tries)) (challenge_sw (challenge_in session)))) }
{
    front?;
    check_tries(tries)?;
    check_challenge(session)
}

// Where there is no code all is as P and case have left it. A code presented changes the tries of the transport key, and no right.
pub(crate) fn hear(
    key: Credential,
    session: Session,
    h: Header,
    front: Result<(), Refused>,
    covered: &[u8],
    code: &[u8],
) -> Heard
    requires { or_else (frame_sw (command_of h [])) (class_sw (command_of h [])) ≡ 0x9000 }
    ensures { (c : Card) → c.session ≡ session → credential c 3 ≡ key → value_of (credential c 3) ≡ (credential c 3).value → (sw : _) → front ≡ checked sw → Hears sw c (coded_of h [] code.now covered.now) result }
{
    let tries = key.tries;
    let left = tries.left;
    if h.cla != WITH_CODE {
        return Heard {
            verdict: front,
            left,
        };
    }
    if let Err(refused) = check_key(front, tries, session) {
        return Heard {
            verdict: Err(refused),
            left,
        };
    }
    let right = is_code_under(key.value, session, covered, code);
    let after = tried(tries, right);
    Heard {
        verdict: unless(right, 0x6988),
        left: after.left,
    }
}
