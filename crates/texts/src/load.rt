// What a text says, field by field.
ghost use Rattle.std.specs.Prelude.{◌≡◌, [], ◌∷◌, ◌+◌, ◌≤◌, leb, length, replicate};
ghost use Rattle.files.specs.Words.{every};
ghost use Rattle.files.specs.Part.{zeros};
ghost use Rattle.files.specs.State.{blank_file};
ghost use Rattle.files.specs.Create.{area_size};
ghost use Rattle.texts.specs.Forms.{is_new};
ghost use Rattle.texts.specs.Text.{lines_for};
ghost use Rattle.texts.specs.Reading.{hex_in, tries_in, credential_in, home_in, past_home, current_in, rights_in, session_in, response_in, counted, file_in, housed_in, behind, contents_in, contents_part, folder_next, folder_in, folders_in, most_folders_of, foldered, folders_part, laid, length_for, LoadsAll, LoadsDirectory, LoadsCard};

use crate::Form;
use crate::scan::{byte_at, ends, fields, hex_in, number_in, pairs_in, past, skip, small_in};
use card::state::{no_journal, response_of};
use files::find::{find_fid, find_folder};
use files::numbers::two;
use files::sizes::{VARIABLE, size};
use files::state::{
    added, added_folder, in_folder, new_file, new_folder, no_files, with_newest, with_used,
};
use files::{Directory, File, Folder};
use rules::{CREDENTIALS, Card, Credential, RESPONSE_SIZE, RIGHTS, Response, Session, Tries};

fn tries_in(s: &[u8]) -> Tries
    ensures { result ≡ tries_in s.now }
{
    let limit = small_in(s);
    let left = small_in(fields(s, 1));
    Tries { left, limit }
}

fn credential_in(s: &[u8]) -> Credential
    ensures { result ≡ credential_in s.now }
{
    let tries = tries_in(fields(s, 1));
    let mut value = [0u8; 16];
    let n = hex_in(s, &mut value);
    Credential {
        value,
        len: n as u8,
        tries,
    }
}

// The first N bytes of a field; those that are not there are 00.
fn bytes_in<const N: usize>(s: &[u8]) -> [u8; N]
    ensures { result ≡ laid (zeros N) 0 (hex_in N s.now) }
{
    let mut bytes = [0u8; N];
    hex_in(s, &mut bytes);
    bytes
}

// The directory of a FID, 0 for the root.
fn home_in(d: Directory, s: &[u8]) -> u8
    ensures { result ≡ home_in d s.now }
{
    let fid = bytes_in::<2>(s);
    find_folder(d, two(fid[0], fid[1]) as u16)
}

// Behind the directory's FID, which only the new form has.
fn past_home(form: Form, s: &[u8]) -> &[u8]
    ensures { result.now ≡ past_home (is_new form) s.now }
{
    match form {
        Form::New => skip(s),
        Form::Old => s,
    }
}

// The file of a FID in a directory; none where there is no FID.
fn current_in(d: Directory, home: u8, s: &[u8]) -> u8
    ensures { result ≡ current_in d home (hex_in 2 s.now) }
{
    let mut fid = [0u8; 2];
    let n = hex_in(s, &mut fid);
    if n == 0 {
        return 0;
    }
    find_fid(d, home, two(fid[0], fid[1]) as u16)
}

fn rights_in(s: &[u8]) -> [u8; RIGHTS]
    ensures { result ≡ rights_in s.now }
{
    [small_in(s), small_in(fields(s, 1)), small_in(fields(s, 2))]
}

fn session_in(d: Directory, s: &[u8]) -> Session
    ensures { result ≡ session_in d s.now }
{
    let rights = rights_in(s);
    let home = home_in(d, fields(s, RIGHTS + 4));
    let current = current_in(d, home, fields(s, RIGHTS));
    let mut challenge = [0u8; 16];
    let n = hex_in(fields(s, RIGHTS + 1), &mut challenge);
    Session {
        rights,
        current,
        challenge,
        len: n as u8,
        folder: home,
    }
}

// The mode, and the bytes that wait.
fn response_in(s: &[u8]) -> Response
    ensures { result ≡ response_in s.now }
{
    let mode = small_in(fields(s, RIGHTS + 2));
    let mut waiting = [0u8; RESPONSE_SIZE];
    let n = hex_in(fields(s, RIGHTS + 3), &mut waiting);
    response_of(mode, &waiting[..n])
}

// With so many records held, or bytes used, and its newest place.
fn counted(f: File, n: u16, newest: u8) -> File
    ensures { result ≡ counted f n newest }
{
    if f.kind == VARIABLE {
        return with_used(with_newest(f, 0, newest), n);
    }
    with_newest(f, (n % 256) as u8, newest)
}

// A file's line without its directory.
fn file_in(s: &[u8]) -> File
    ensures { result ≡ file_in s.now }
{
    let n = number_in(fields(s, 2)) as u16;
    let newest = small_in(fields(s, 3));
    let fid = bytes_in::<2>(s);
    let made = bytes_in::<5>(fields(s, 1));
    let f = new_file(fid[0], fid[1], made[0], made[1], made[2], made[3], made[4]);
    counted(f, n, newest)
}

// A file's line with its directory.
fn housed_in(d: Directory, s: &[u8]) -> File
    ensures { result ≡ housed_in d s.now }
{
    let home = home_in(d, fields(s, 4));
    in_folder(home, file_in(s))
}

// Behind a file's line.
fn contents_part(form: Form, s: &[u8]) -> &[u8]
    ensures { result.now ≡ contents_part (is_new form) s.now }
{
    past_home(form, fields(s, 4))
}

// n bytes of contents into a buffer; what stands behind them.
fn contents_in<'a>(s: &'a [u8], n: usize, image: &mut [u8], to: usize) -> &'a [u8]
    requires { (length_for n ≤ length s.now) × (to + n ≤ length image.old) }
    ensures rest { result.now ≡ behind (lines_for n) n s.now }
    ensures image { image.new ≡ laid image.old to (contents_in n s.now) }
{
    let mut rest = s;
    let mut i: usize = 0;
    // No step_by: the last row may be shorter, and i is never past n.
    while i < n {
        let m = (n - i).min(32);
        pairs_in(rest, m, image, to + i);
        rest = past(rest, m + m + 1);
        i += m;
    }
    rest
}

// So many bytes of text n bytes take in their lines.
fn length_for(n: usize) -> usize
    requires { n ≤ 65535 }
    ensures { result ≡ length_for n }
{
    n + n + (n + 31) / 32
}

// There is text left, the area has room for n bytes more, and they stand in the text.
fn goes_on(left: usize, n: usize, room: usize, behind: usize) -> bool
    requires { n ≤ 65535 }
    ensures { result ≡ every (leb 1 left ∷ leb n room ∷ leb (length_for n) behind ∷ []) }
{
    1 <= left && n <= room && length_for(n) <= behind
}

// A directory's line comes next: its second field has two digits.
fn folder_next(s: &[u8]) -> bool
    ensures { result ≡ folder_next s.now }
{
    ends(byte_at(fields(s, 1), 2))
}

fn folder_in(s: &[u8]) -> Folder
    ensures { result ≡ folder_in s.now }
{
    let fid = bytes_in::<2>(s);
    let right = bytes_in::<1>(fields(s, 1));
    new_folder(fid[0], fid[1], right[0])
}

// So many directories are read at most: the old form has none.
fn most_folders(form: Form) -> usize
    ensures { (result ≡ most_folders_of (is_new form)) × (result ≤ 4) }
{
    match form {
        Form::New => 4,
        Form::Old => 0,
    }
}

// The directories, as far as the text goes on with them.
fn folders_in(form: Form, s: &[u8]) -> Directory
    ensures { result ≡ foldered (folders_in (most_folders_of (is_new form)) s.now) }
{
    let mut d = no_files();
    let mut rest = s;
    for _ in 0..most_folders(form) {
        if !folder_next(rest) {
            return d;
        }
        d = added_folder(d, folder_in(rest));
        rest = fields(rest, 2);
    }
    d
}

// The files, as far as the text goes on with them, and their bytes.
fn files_in(form: Form, given: Directory, s: &[u8], image: &mut [u8]) -> Directory
    requires { (given.files ≡ replicate 16 blank_file) × (given.count ≡ 0) }
    ensures { LoadsAll (is_new form) given s.now image.old result image.new }
{
    let mut d = given;
    let mut rest = s;
    let mut to: usize = 0;
    for _ in 0..16usize {
        let f = housed_in(given, rest);
        let n = size(f);
        let lines = contents_part(form, rest);
        if !goes_on(rest.len(), n, image.len() - to, lines.len()) {
            return d;
        }
        d = added(d, f);
        rest = contents_in(lines, n, image, to);
        to += n;
    }
    d
}

// Behind the session's line.
fn lines_in(form: Form, s: &[u8]) -> &[u8]
    ensures { result.now ≡ folders_part (is_new form) s.now }
{
    let rest = fields(s, 3 * CREDENTIALS);
    past_home(form, fields(rest, RIGHTS + 4))
}

// Directories and files.
fn directory_in(form: Form, s: &[u8], image: &mut [u8]) -> Directory
    requires { length image.old ≡ area_size }
    ensures { LoadsDirectory (is_new form) s.now image.old result image.new }
{
    let lines = lines_in(form, s);
    let given = folders_in(form, lines);
    let n = usize::from(given.number);
    files_in(form, given, fields(lines, n + n), image)
}

pub(crate) fn card_in(form: Form, s: &[u8], image: &mut [u8]) -> Card
    requires { length image.old ≡ area_size }
    ensures { LoadsCard (is_new form) s.now image.old result image.new }
{
    let device = credential_in(s);
    let admin = credential_in(fields(s, 3));
    let user = credential_in(fields(s, 6));
    let transport = credential_in(fields(s, 9));
    let credentials = [device, admin, user, transport];
    let rest = fields(s, 3 * CREDENTIALS);
    let directory = directory_in(form, s, image);
    let session = session_in(directory, rest);
    let response = response_in(rest);
    let journal = no_journal();
    Card {
        credentials,
        directory,
        session,
        response,
        journal,
    }
}
