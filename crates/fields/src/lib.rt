// The parts of a line of `desk`: classes of bytes, numbers, keys, and texts with their numbers.
#![tactic(auto)]

ghost use Rattle.std.specs.Prelude.{◌≡◌, ◌+◌, drop};
ghost use Rattle.fields.specs.Bytes.{class_of, digit_of, counts};
ghost use Rattle.fields.specs.Parts.{run, number_in, number_at, text_at, field_at, key_at};

// ---- bytes

// What a byte of a line is, by its range: the form that document 01 names. A digit carries its value.
#[derive(Clone, Copy)]
pub enum Class {
    Digit(u8),
    Letter,
    Separator,
    Bad,
}

// The class of a byte.
pub fn class_of(b: u8) -> Class
    ensures { result ≡ class_of b }
{
    match b {
        b'0'..=b'9' => Class::Digit(b - b'0'),
        b'a'..=b'z' => Class::Letter,
        b' ' | b'=' => Class::Separator,
        _ => Class::Bad,
    }
}

// What a digit counts; 0 for any other byte.
fn digit(b: u8) -> u64
    ensures { result ≡ digit_of b }
{
    match class_of(b) {
        Class::Digit(d) => d as u64,
        Class::Letter | Class::Separator | Class::Bad => 0,
    }
}

// Whether a byte goes on a run of digits or, where `letters` says so, of digits and small letters.
fn goes_on(b: u8, letters: bool) -> bool
    ensures { result ≡ counts letters b }
{
    match class_of(b) {
        Class::Digit(_) => true,
        Class::Letter => letters,
        Class::Separator | Class::Bad => false,
    }
}

// ---- parts of a line. A number stands beside the place past it.

// What is left of the line from `at` on.
fn rest(line: &[u8], at: usize) -> &[u8]
    ensures { result.now ≡ drop at line.now }
{
    &line[at.min(line.len())..]
}

// The end of the run of digits, or of digits and letters, that starts at `at`.
fn run_end(line: &[u8], at: usize, letters: bool) -> usize
    ensures { result ≡ at + run (counts letters) (drop at line.now) }
{
    at + rest(line, at)
        .iter()
        .take_while(|b| goes_on(**b, letters))
        .count()
}

// What a run of digits says, where that is a u64; `next` is the place past it.
fn number_in(digits: &[u8], next: usize) -> Option<(u64, usize)>
    ensures { result ≡ number_in digits.now next }
{
    let mut value: u64 = 0;
    for &b in digits {
        value = value.checked_mul(10)?.checked_add(digit(b))?;
    }
    Some((value, next))
}

// The number that starts at `at`: no leading zero.
fn number_at(line: &[u8], at: usize) -> Option<(u64, usize)>
    ensures { result ≡ number_at line.now at }
{
    let end = run_end(line, at, false);
    if end == at || (line[at] == b'0' && 1 < end - at) {
        return None;
    }
    number_in(&line[at..end], end)
}

// Past `text`, where it stands at `at`.
pub fn text_at(line: &[u8], at: usize, text: &[u8]) -> Option<usize>
    ensures { result ≡ text_at line.now at text.now }
{
    if rest(line, at).starts_with(text) {
        Some(at + text.len())
    } else {
        None
    }
}

// The number after `text`, which stands at `at`.
pub fn field_at(line: &[u8], at: usize, text: &[u8]) -> Option<(u64, usize)>
    ensures { result ≡ field_at line.now at text.now }
{
    number_at(line, text_at(line, at, text)?)
}

// Past the key that starts at `at`: 1 to 32 small letters or digits.
pub fn key_at(line: &[u8], at: usize) -> Option<usize>
    ensures { result ≡ key_at line.now at }
{
    let end = run_end(line, at, true);
    match end - at {
        1..=32 => Some(end),
        _ => None,
    }
}
