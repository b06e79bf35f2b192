// The line that `desk` prints for a call and `shots` for a shot, written into a lent slice. A line stands here without its newline.
#![tactic(auto)]

ghost use Rattle.std.specs.Prelude.{◌≡◌, ◌+◌, ◌≤◌, ◌<◌, ◌++◌, length};
ghost use Rattle.fields.specs.Numbers.{show_number};
ghost use Rattle.lines.specs.Shown.{factor_text};
ghost use Rattle.printing.specs.Answers.{show_field, answer_text, show_hex16, hex_digit, hex_digits, show_verdict, show_counts, longest};
ghost use Rattle.printing.specs.Printing.{Put, PutField, PutFour, Printed};

// The words of an answer.
#[derive(Clone, Copy, PartialEq, Eq)]
pub enum Answer {
    Allowed,
    Rejected,
    Yes,
    No,
    Value,
    Held,
    Refused,
}

// What a line says. `factor` is the factor's bits.
#[derive(Clone, Copy, PartialEq, Eq)]
pub struct AnswerLine {
    pub t: u64,
    pub code: u64,
    pub answer: Answer,
    pub factor: u64,
    pub wait: u64,
    pub left: u64,
    pub total: u64,
    pub declined: u64,
}

// Each `put` writes its bytes from `at` on and answers the place past them.
fn put_text(out: &mut [u8], at: usize, text: &[u8]) -> usize
    requires { at + length text.now ≤ length out.old }
    ensures { Put out.old at text.now out.new result }
{
    let end = at + text.len();
    out[at..end].copy_from_slice(text);
    end
}

fn decimal_digit(d: u64) -> u8
    requires { d < 10 }
    ensures { result ≡ 48 + d }
{
    b'0' + (d as u8)
}

fn put_number(out: &mut [u8], at: usize, n: u64) -> usize
    requires { at + length (show_number n) ≤ length out.old }
    ensures { Put out.old at (show_number n) out.new result }
{
    if n < 10 {
        out[at] = decimal_digit(n);
        return at + 1;
    }
    let next = put_number(out, at, n / 10);
    out[next] = decimal_digit(n % 10);
    next + 1
}

#[tactic(auto, unfolding(crate::specs::Answers::hex_digit))]
fn hex_digit(d: u64) -> u8
    requires { d < 16 }
    ensures { result ≡ hex_digit d }
{
    if d < 10 {
        b'0' + (d as u8)
    } else {
        b'a' - 10 + (d as u8)
    }
}

// The `count` lowest hex digits of a word.
fn put_hex(out: &mut [u8], at: usize, word: u64, count: usize) -> usize
    requires { at + count ≤ length out.old }
    ensures { Put out.old at (hex_digits count word) out.new result }
{
    if count == 0 {
        return at;
    }
    let next = put_hex(out, at, word / 16, count - 1);
    out[next] = hex_digit(word % 16);
    next + 1
}

fn put_field(out: &mut [u8], at: usize, text: &[u8], n: u64) -> usize
    requires { (length text.now ≤ 10) × (at + 30 ≤ length out.old) }
    ensures { PutField out.old at (show_field text.now n) out.new result }
{
    let next = put_text(out, at, text);
    put_number(out, next, n)
}

fn put_answer(out: &mut [u8], at: usize, answer: Answer) -> usize
    requires { at + 30 ≤ length out.old }
    ensures { PutField out.old at (answer_text answer) out.new result }
{
    match answer {
        Answer::Allowed => put_text(out, at, b" answer=allowed"),
        Answer::Rejected => put_text(out, at, b" answer=rejected"),
        Answer::Yes => put_text(out, at, b" answer=yes"),
        Answer::No => put_text(out, at, b" answer=no"),
        Answer::Value => put_text(out, at, b" answer=value"),
        Answer::Held => put_text(out, at, b" answer=held"),
        Answer::Refused => put_text(out, at, b" answer=refused"),
    }
}

fn put_factor(out: &mut [u8], at: usize, factor: u64) -> usize
    requires { at + 30 ≤ length out.old }
    ensures { PutField out.old at (factor_text ++ show_hex16 factor) out.new result }
{
    let next = put_text(out, at, b" factor=");
    put_hex(out, next, factor, 16)
}

// The first four fields.
fn put_verdict(out: &mut [u8], line: AnswerLine) -> usize
    requires { longest ≤ length out.old }
    ensures { PutFour out.old 0 (show_verdict line.t line.code line.answer line.factor) out.new result }
{
    let a = put_field(out, 0, b"t=", line.t);
    let b = put_field(out, a, b" code=", line.code);
    let c = put_answer(out, b, line.answer);
    put_factor(out, c, line.factor)
}

// The last four.
fn put_counts(out: &mut [u8], at: usize, line: AnswerLine) -> usize
    requires { at + 120 ≤ length out.old }
    ensures { PutFour out.old at (show_counts line.wait line.left line.total line.declined) out.new result }
{
    let a = put_field(out, at, b" wait=", line.wait);
    let b = put_field(out, a, b" left=", line.left);
    let c = put_field(out, b, b" total=", line.total);
    put_field(out, c, b" declined=", line.declined)
}

// Room enough for any line.
pub const LONGEST: usize = 240;

// Writes the line at the start of `out` and answers its length; into less than `LONGEST` bytes it writes nothing and answers 0.
pub fn print(line: AnswerLine, out: &mut [u8]) -> usize
    ensures { Printed line out.old out.new result }
{
    if out.len() < LONGEST {
        return 0;
    }
    let next = put_verdict(out, line);
    put_counts(out, next, line)
}
