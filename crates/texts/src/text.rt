// The lines of a card.
ghost use Rattle.std.specs.Prelude.{◌≡◌, cond, [], ◌∷◌, ◌++◌, take, flat_map};
ghost use Rattle.digits.specs.Digits.{tab, newline, ended, decimal, hex_of, or_dash};
ghost use Rattle.files.specs.Words.{is_zero, Bounded};
ghost use Rattle.files.specs.Directory.{used};
ghost use Rattle.rules.specs.State.{wait_count};
ghost use Rattle.texts.specs.Forms.{is_new};
ghost use Rattle.texts.specs.Text.{home_fid, parting, tail, credential_line, credential_lines, session_line, folder_line, folder_lines, folder_count, held_or_used, file_line, contents, files_text, text};
ghost use Rattle.digits.specs.Page.{Draws};

use crate::Form;
use digits::page::{hex_field, number_field, put, put_hex};
use digits::{NEWLINE, TAB};
use files::numbers::two;
use files::places::{file, folder, used};
use files::record::bytes_used;
use files::sizes::{VARIABLE, size};
use files::{Directory, File, Folder};
use rules::{ADMIN, Card, Credential, DEVICE, Response, Session, TRANSPORT, USER};

// The first n bytes as a field.
fn front_field(out: &mut [u8], at: usize, bytes: &[u8], n: usize, end: u8) -> usize
    ensures { Draws (ended end (or_dash (take n bytes.now))) out.old at result out.new }
{
    let m = n.min(bytes.len());
    hex_field(out, at, &bytes[..m], end)
}

// Value, limit, tries.
fn put_credential(out: &mut [u8], at: usize, x: Credential) -> usize
    ensures { Draws (credential_line x) out.old at result out.new }
{
    let value = x.value;
    let a = front_field(out, at, &value, usize::from(x.len), TAB);
    let b = number_field(out, a, u32::from(x.tries.limit), TAB);
    number_field(out, b, u32::from(x.tries.left), NEWLINE)
}

// The byte behind the field before the directory's FID, which only the new form has.
fn separator(form: Form) -> u8
    ensures { result ≡ parting (is_new form) }
{
    match form {
        Form::New => TAB,
        Form::Old => NEWLINE,
    }
}

// A directory's FID, 3F00 for the root.
fn home_fid(d: Directory, place: u8) -> [u8; 2]
    ensures { result ≡ home_fid d place }
{
    if place == 0 {
        return [0x3F, 0x00];
    }
    let x = folder(d, place);
    [x.fid1, x.fid2]
}

// What stands behind the separator.
fn put_home(form: Form, out: &mut [u8], at: usize, d: Directory, place: u8) -> usize
    ensures { Draws (tail (is_new form) d place) out.old at result out.new }
{
    match form {
        Form::New => {
            let fid = home_fid(d, place);
            hex_field(out, at, &fid, NEWLINE)
        }
        Form::Old => at,
    }
}

// Two bytes of FID, none for no file.
fn fid_length(place: u8) -> usize
    ensures { Bounded 2 (cond (is_zero place) 0 2) result }
{
    if place == 0 { 0 } else { 2 }
}

// The rights of the credentials, each as 0 or 1.
fn put_rights(out: &mut [u8], at: usize, rights: &[u8]) -> usize
    ensures { Draws (flat_map (λ r. ended tab (decimal r)) rights.now) out.old at result out.new }
{
    let mut q = at;
    for right in rights {
        q = number_field(out, q, u32::from(*right), TAB);
    }
    q
}

fn put_challenge(out: &mut [u8], at: usize, s: Session) -> usize
    ensures { Draws (ended tab (or_dash (take s.len s.challenge))) out.old at result out.new }
{
    let challenge = s.challenge;
    front_field(out, at, &challenge, usize::from(s.len), TAB)
}

// Mode, and the bytes that wait.
fn put_response(out: &mut [u8], at: usize, x: Response, end: u8) -> usize
    ensures { Draws (ended tab (decimal x.mode) ++ ended end (or_dash (take (wait_count x) x.bytes))) out.old at result out.new }
{
    let bytes = x.bytes;
    let n = two(x.count1, x.count2);
    let a = number_field(out, at, u32::from(x.mode), TAB);
    front_field(out, a, &bytes, n, end)
}

fn put_session(form: Form, out: &mut [u8], at: usize, card: Card) -> usize
    ensures { Draws (session_line (is_new form) card) out.old at result out.new }
{
    let session = card.session;
    let f = file(card.directory, session.current);
    let fid = [f.fid1, f.fid2];
    let n = fid_length(session.current);
    let a = put_rights(out, at, &session.rights);
    let b = front_field(out, a, &fid, n, TAB);
    let c = put_challenge(out, b, session);
    let e = put_response(out, c, card.response, separator(form));
    put_home(form, out, e, card.directory, session.folder)
}

// A directory: FID, creation right.
fn put_folder(out: &mut [u8], at: usize, x: Folder) -> usize
    ensures { Draws (folder_line x) out.old at result out.new }
{
    let fid = [x.fid1, x.fid2];
    let right = [x.right];
    let a = hex_field(out, at, &fid, TAB);
    hex_field(out, a, &right, NEWLINE)
}

// Each directory, as made.
fn put_folders(out: &mut [u8], at: usize, d: Directory) -> usize
    ensures { Draws (folder_lines (take (folder_count d) d.folders)) out.old at result out.new }
{
    let n = usize::from(d.number).min(4);
    let mut q = at;
    for x in &d.folders[..n] {
        q = put_folder(out, q, *x);
    }
    q
}

// Records held; of type 2C the bytes used.
fn held_or_used(f: File) -> u32
    ensures { result ≡ held_or_used f }
{
    if f.kind == VARIABLE {
        return bytes_used(f) as u32;
    }
    u32::from(f.held)
}

// FID, CREATE's five bytes, records held, newest place, its directory.
fn put_file(form: Form, out: &mut [u8], at: usize, d: Directory, f: File) -> usize
    ensures { Draws (file_line (is_new form) d f) out.old at result out.new }
{
    let fid = [f.fid1, f.fid2];
    let made = [f.kind, f.size1, f.size2, f.read, f.write];
    let a = hex_field(out, at, &fid, TAB);
    let b = hex_field(out, a, &made, TAB);
    let c = number_field(out, b, held_or_used(f), TAB);
    let e = number_field(out, c, u32::from(f.newest), separator(form));
    put_home(form, out, e, d, f.folder)
}

// A line of contents.
fn put_row(out: &mut [u8], at: usize, bytes: &[u8]) -> usize
    ensures { Draws (ended newline (hex_of bytes.now)) out.old at result out.new }
{
    let q = put_hex(out, at, bytes);
    put(out, q, NEWLINE)
}

// Contents, 32 bytes a line, the rest in the last.
fn put_contents(out: &mut [u8], at: usize, bytes: &[u8]) -> usize
    ensures { Draws (contents bytes.now) out.old at result out.new }
{
    let mut q = at;
    for row in bytes.chunks(32) {
        q = put_row(out, q, row);
    }
    q
}

// A file's line and its contents.
fn put_whole(form: Form, out: &mut [u8], at: usize, d: Directory, f: File, bytes: &[u8]) -> usize
    ensures { Draws (file_line (is_new form) d f ++ contents bytes.now) out.old at result out.new }
{
    let q = put_file(form, out, at, d, f);
    put_contents(out, q, bytes)
}

fn put_files(form: Form, out: &mut [u8], at: usize, d: Directory, area: &[u8]) -> usize
    ensures { Draws (files_text (is_new form) d (take (used d) d.files) area.now) out.old at result out.new }
{
    let mut q = at;
    let mut rest = area;
    for f in &d.files[..used(d)] {
        let (bytes, more) = rest.split_at(size(*f).min(rest.len()));
        q = put_whole(form, out, q, d, *f, bytes);
        rest = more;
    }
    q
}

fn put_credentials(out: &mut [u8], at: usize, card: Card) -> usize
    ensures { Draws (credential_lines card) out.old at result out.new }
{
    let device = card.credentials[DEVICE];
    let admin = card.credentials[ADMIN];
    let user = card.credentials[USER];
    let transport = card.credentials[TRANSPORT];
    let a = put_credential(out, at, device);
    let b = put_credential(out, a, admin);
    let c = put_credential(out, b, user);
    put_credential(out, c, transport)
}

// The whole text.
pub(crate) fn put_card(form: Form, out: &mut [u8], card: Card, area: &[u8]) -> usize
    ensures { Draws (text (is_new form) card area.now) out.old 0 result out.new }
{
    let directory = card.directory;
    let a = put_credentials(out, 0, card);
    let b = put_session(form, out, a, card);
    let c = put_folders(out, b, directory);
    put_files(form, out, c, directory, area)
}
