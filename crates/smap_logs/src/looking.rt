//! Whether a line has a position, and where it is no frame alone on its line, what it shows of that.
ghost use Rattle.std.specs.Prelude.{◌≡◌, ◌≤◌, length, ◌==◌, ◌&&◌, ℕ, List};
ghost use Rattle.std.specs.Char.{is_ascii_digit};
ghost use Rattle.std.specs.List.{prefix_len};
ghost use Rattle.smap_logs.specs.Looking as spec;

/// A sign that a line has positions which aren't frames alone on their line.
#[derive(Clone, Copy, Debug, PartialEq, Eq)]
pub enum Sign {
    /// It holds the beginning of a colour sequence.
    Colours,
    /// It holds an escaped line feed, as a text in JSON does.
    Json,
    /// It is indented by a tab.
    Tabs,
    /// Something stands behind the position.
    Behind,
}

/// How much of the name of a file was read.
#[derive(Clone, Copy)]
enum Name {
    /// Nothing that a file's name must hold.
    Nothing,
    /// A slash or a dot.
    Mark,
    /// A slash or a dot, and somewhere behind it a letter.
    Letter,
}

fn ends_name(byte: u8) -> bool
    ensures { result ≡ spec.ends_name byte }
{
    byte == b' ' || byte == b'"' || byte == b'(' || byte == b')' || byte == b':'
}

fn is_mark(byte: u8) -> bool
    ensures { result ≡ spec.is_mark byte }
{
    byte == b'/' || byte == b'.'
}

fn with_mark(name: Name) -> Name
    ensures { result ≡ spec.with_mark name }
{
    match name {
        Name::Nothing => Name::Mark,
        Name::Mark | Name::Letter => name,
    }
}

fn with_letter(name: Name) -> Name
    ensures { result ≡ spec.with_letter name }
{
    match name {
        Name::Mark => Name::Letter,
        Name::Nothing | Name::Letter => name,
    }
}

/// What was read of a name once this byte is read too. Where it ends the name, another begins behind it.
fn name_with(name: Name, byte: u8) -> Name
    ensures { result ≡ spec.name_with name byte }
{
    if ends_name(byte) {
        Name::Nothing
    } else if is_mark(byte) {
        with_mark(name)
    } else if byte.is_ascii_alphabetic() {
        with_letter(name)
    } else {
        name
    }
}

fn begins_number(byte: u8) -> bool
    ensures { result ≡ spec.begins_number byte }
{
    b'1' <= byte && byte <= b'9'
}

/// How many digits a text begins with.
pub(crate) fn digits_len(text: &[u8]) -> usize
    ensures value { result ≡ prefix_len is_ascii_digit text.now }
    ensures within { result ≤ length text.now }
{
    for at in 0..text.len() {
        if !text[at].is_ascii_digit() {
            return at;
        }
    }
    text.len()
}

/// Whether a text begins with a number from 1 on, a colon and the beginning of another such number.
fn begins_with_place(text: &[u8]) -> bool
    ensures { result ≡ spec.begins_with_place text.now }
{
    if text.is_empty() || !begins_number(text[0]) {
        return false;
    }
    let colon = digits_len(text);
    colon < text.len() - 1 && text[colon] == b':' && begins_number(text[colon + 1])
}

/// Whether a byte ends the name of a file, of which this was read, and a position stands from it on.
fn begins_position(name: Name, byte: u8, behind: &[u8]) -> bool
    ensures { (read : List ℕ) → name ≡ spec.name_in read → result
        ≡ (byte == 58 && spec.names_file read && spec.begins_with_place behind.now) }
{
    if byte != b':' {
        return false;
    }
    match name {
        Name::Letter => begins_with_place(behind),
        Name::Nothing | Name::Mark => false,
    }
}

/// Whether a line holds a position of a file.
fn holds_position(line: &[u8]) -> bool
    ensures { result ≡ spec.holds_position line.now }
{
    let mut name = Name::Nothing;
    for at in 0..line.len() {
        if begins_position(name, line[at], &line[at + 1..]) {
            return true;
        }
        name = name_with(name, line[at]);
    }
    false
}

fn without_return(line: &[u8]) -> &[u8]
    ensures { result.now ≡ spec.without_return line.now }
{
    if line.ends_with(b"\r") {
        &line[..line.len() - 1]
    } else {
        line
    }
}

/// Whether these two bytes stand in a text, one behind the other.
pub(crate) fn holds_pair(text: &[u8], first: u8, second: u8) -> bool
    ensures { result ≡ spec.holds_pair first second text.now }
{
    for at in 0..text.len() {
        if text[at] == first && text[at + 1..].starts_with(&[second]) {
            return true;
        }
    }
    false
}

/// Whether a line begins with a tab, maybe behind spaces.
fn is_indented_by_tab(line: &[u8]) -> bool
    ensures { result ≡ spec.is_indented_by_tab line.now }
{
    for at in 0..line.len() {
        if line[at] != b' ' {
            return line[at] == b'\t';
        }
    }
    false
}

/// Whether a line ends as a frame does: in a digit or a parenthesis.
fn ends_as_frame(line: &[u8]) -> bool
    ensures { result ≡ spec.ends_as_frame line.now }
{
    if line.is_empty() {
        return false;
    }
    let last = line[line.len() - 1];
    last.is_ascii_digit() || last == b')'
}

/// The first sign that a line shows.
fn sign_of(line: &[u8]) -> Option<Sign>
    ensures { result ≡ spec.sign_of line.now }
{
    if holds_pair(line, 0x1b, b'[') {
        return Some(Sign::Colours);
    }
    if holds_pair(line, b'\\', b'n') {
        return Some(Sign::Json);
    }
    if is_indented_by_tab(line) {
        return Some(Sign::Tabs);
    }
    if ends_as_frame(line) {
        None
    } else {
        Some(Sign::Behind)
    }
}

/// Whether a line (without line feed) holds a position of a file, `Some`, and the first of the signs that it
/// shows. A carriage return at its end is not looked at.
///
/// The time is proportional to the line's length.
pub fn look(line: &[u8]) -> Option<Option<Sign>>
    ensures { result ≡ spec.look line.now }
{
    let line = without_return(line);
    if holds_position(line) {
        Some(sign_of(line))
    } else {
        None
    }
}
