// Replays a list of calls with their answers and states: cases worked out by hand, and a sample of the original's answers. The
// list's lines are described in oracle/README.md; a line that starts with '#' is a heading. For each heading one line says how many calls
// came out, and each call that did not is shown with what was found. Every call is of party 1, which is promised every slot.
#![tactic(auto)]

ghost use Rattle.std.specs.Prelude.{◌+◌, ◌≤◌, length, IfOk};

use answers::{
    ConditionalSetOutcome, HistoryPreservation, HistoryUpdateMode, RateLimitDecision,
    SuppressedRateLimitSnapshot,
};
use common::{
    BucketSize, RateLimit, RateLimitComparator, Refusal, SuppressionFactorCachePeriod, WindowSize,
};
use desk_lines::alone;
use rules::RoomKind;
use settings::{ClockMode, Settings};
use std::io;
use std::io::Read;

// ---- answers as the list has them: a kind and three numbers; a refusal is kind 0 with its number

#[derive(Clone, Copy, PartialEq)]
struct Row {
    kind: u64,
    x: u64,
    y: u64,
    z: u64,
}

fn answer(kind: u64, x: u64, y: u64, z: u64) -> Row {
    Row { kind, x, y, z }
}

fn refused(n: u64) -> Row {
    answer(0, n, 0, 0)
}

fn said(yes: bool) -> u64 {
    if yes { 1 } else { 0 }
}

fn decision_row(d: RateLimitDecision) -> Row {
    match d {
        RateLimitDecision::Allowed => answer(2, 0, 0, 0),
        RateLimitDecision::Rejected {
            window_size,
            retry_after,
            remaining_after_waiting,
        } => answer(3, window_size.0, retry_after, remaining_after_waiting),
        RateLimitDecision::Suppressed {
            suppression_factor,
            is_allowed,
        } => answer(4, common::word_of(suppression_factor), said(is_allowed), 0),
        RateLimitDecision::Refused(n) => refused(n),
    }
}

fn total_row(a: Result<u64, Refusal>) -> Row {
    match a {
        Ok(n) => answer(5, n, 0, 0),
        Err(Refusal(n)) => refused(n),
    }
}

fn snapshot_row(a: Result<SuppressedRateLimitSnapshot, Refusal>) -> Row {
    match a {
        Ok(s) => answer(
            6,
            s.total,
            s.total_declined,
            common::word_of(s.suppression_factor),
        ),
        Err(Refusal(n)) => refused(n),
    }
}

fn factor_row(a: Result<f64, Refusal>) -> Row {
    match a {
        Ok(f) => answer(7, common::word_of(f), 0, 0),
        Err(Refusal(n)) => refused(n),
    }
}

fn rate_row(a: Result<Option<RateLimit>, Refusal>) -> Row {
    match a {
        Ok(Some(r)) => answer(8, 1, common::word_of(r.0), 0),
        Ok(None) => answer(8, 0, 0, 0),
        Err(Refusal(n)) => refused(n),
    }
}

fn delete_row(a: Result<Option<u64>, Refusal>) -> Row {
    match a {
        Ok(Some(n)) => answer(9, 1, n, 0),
        Ok(None) => answer(9, 0, 0, 0),
        Err(Refusal(n)) => refused(n),
    }
}

fn set_row(a: Result<ConditionalSetOutcome, Refusal>) -> Row {
    match a {
        Ok(o) => answer(10, said(o.matched), o.previous_total, o.current_total),
        Err(Refusal(n)) => refused(n),
    }
}

fn done_row(a: Result<(), Refusal>) -> Row {
    match a {
        Ok(()) => answer(1, 0, 0, 0),
        Err(Refusal(n)) => refused(n),
    }
}

// ---- a call by its numbers

fn comparator(number: u64, operand: u64) -> RateLimitComparator {
    match number {
        0 => RateLimitComparator::Always,
        1 => RateLimitComparator::Eq(operand),
        2 => RateLimitComparator::Lt(operand),
        3 => RateLimitComparator::Gt(operand),
        _ => RateLimitComparator::Ne(operand),
    }
}

fn mode(number: u64) -> HistoryUpdateMode {
    match number {
        0 => HistoryUpdateMode::Replace,
        1 => HistoryUpdateMode::Preserve(HistoryPreservation::PreserveNewest),
        _ => HistoryUpdateMode::Preserve(HistoryPreservation::PreserveOldest),
    }
}

fn settings_of(n: [u64; 6]) -> Settings {
    Settings {
        window_size: WindowSize(n[2]),
        bucket_size: BucketSize(n[3]),
        hard_limit_factor: common::double_of(n[5]),
        suppression_factor_cache_period: SuppressionFactorCachePeriod(n[4]),
        clock_mode: ClockMode::Milliseconds,
    }
}

// A call with all its arguments, those too that it has no use for.
#[derive(Clone, Copy)]
struct Call {
    op: u64,
    reading: u64,
    rate: RateLimit,
    count: u64,
    draw: u64,
    comparator: RateLimitComparator,
    mode: HistoryUpdateMode,
    stale: u64,
}

fn call_of(n: [u64; 24]) -> Call {
    Call {
        op: n[0],
        reading: n[1],
        rate: RateLimit(common::double_of(n[7])),
        count: n[8],
        draw: n[9],
        comparator: comparator(n[10], n[11]),
        mode: mode(n[12]),
        stale: n[13],
    }
}

// The calls that both limiters have, by the number below 10.
fn shared(kind: RoomKind, s: Settings, w: &mut [u64], key: &[u8], op: u64, c: Call) -> Row {
    let t = c.reading;
    let who = alone(w);
    let comparator = c.comparator;
    let mode = c.mode;
    match op {
        4 => rate_row(calls::set_rate_limit(kind, s, w, t, who, key, c.rate)),
        5 => delete_row(calls::delete(kind, s, w, t, who, key)),
        6 => done_row(clearing::clear(s, w, t, who)),
        7 => set_row(calls::set(kind, s, w, t, who, key, c.rate, comparator, c.count, mode)),
        _ => done_row(cleanup::cleanup(kind, s, w, t, who, c.stale)),
    }
}

fn absolute_row(s: Settings, w: &mut [u64], key: &[u8], c: Call) -> Row {
    let op = c.op;
    let t = c.reading;
    let who = alone(w);
    match op {
        1 => decision_row(absolute::inc(s, w, t, who, key, c.rate, c.count)),
        2 => decision_row(absolute::is_allowed(s, w, t, who, key)),
        3 => total_row(absolute::get(s, w, t, who, key)),
        _ => shared(RoomKind::Absolute, s, w, key, op, c),
    }
}

fn suppressed_row(s: Settings, w: &mut [u64], key: &[u8], op: u64, c: Call) -> Row {
    let t = c.reading;
    let who = alone(w);
    match op {
        1 => decision_row(suppressed::inc(s, w, t, who, key, c.rate, c.count, c.draw)),
        2 => factor_row(suppressed::get_suppression_factor(s, w, t, who, key)),
        3 => snapshot_row(suppressed::get(s, w, t, who, key)),
        _ => shared(RoomKind::Suppressed, s, w, key, op, c),
    }
}

fn called(s: Settings, a: &mut [u64], b: &mut [u64], key: &[u8], c: Call) -> Row {
    let op = c.op;
    if op == 9 {
        let who = alone(a);
        let whose = alone(b);
        return done_row(provider::cleanup(s, a, b, c.reading, who, whose, c.stale));
    }
    if op < 10 {
        return absolute_row(s, a, key, c);
    }
    suppressed_row(s, b, key, op - 10, c)
}

// ---- the key's slot after the call: use, total, declined, buckets, factor bits and factor time, 0 where it has none

#[derive(Clone, Copy, Default, PartialEq)]
struct State {
    used: u64,
    total: u64,
    declined: u64,
    buckets: u64,
    factor: u64,
    time: u64,
}

fn when(yes: bool, n: u64) -> u64 {
    if yes { n } else { 0 }
}

// What a body holds, by its slot's use.
fn body_state(b: &[u64], used: u64) -> State {
    if b.len() < layout::FIXED {
        return State::default();
    }
    let series = used % 2 == 1;
    let cached = 2 <= used;
    State {
        used,
        total: when(series, b[layout::TOTAL]),
        declined: when(series, b[layout::DECLINED]),
        buckets: when(series, b[layout::LEN]),
        factor: when(cached, b[layout::FACTOR]),
        time: when(cached, b[layout::FACTOR_TIME]),
    }
}

fn state_of(w: &[u64], key: &[u8]) -> State {
    if !room::sized(w) {
        return State::default();
    }
    let at = room::find(w, keys::key_of(layout::FIRST, key));
    let slots = w[layout::SLOTS] as usize;
    if slots <= at {
        return State::default();
    }
    let used = room::use_of(w, at);
    let a = room::start(w, at);
    body_state(&w[a..], used)
}

// ---- reading the list

// The decimal at `from`, as far as it fits a word, and where it ends. No `parse`, which takes a number whole or not at all.
fn decimal(line: &[u8], from: usize) -> (u64, usize) {
    let mut value: u64 = 0;
    for at in from..line.len() {
        let Some(more) = appended(value, line[at]) else {
            return (value, at);
        };
        value = more;
    }
    (value, line.len())
}

fn appended(value: u64, b: u8) -> Option<u64> {
    if !b.is_ascii_digit() {
        return None;
    }
    value.checked_mul(10)?.checked_add(u64::from(b - b'0'))
}

// A line's numbers, each behind one separator; one that is missing is 0.
fn numbers<const N: usize>(line: &[u8]) -> [u64; N] {
    let mut out = [0; N];
    let mut at = 1;
    for number in out.iter_mut() {
        if line.len() <= at {
            return out;
        }
        let (value, end) = decimal(line, at + 1);
        *number = value;
        at = end;
    }
    out
}

// ---- the run: settings, the rooms' length, and how many calls came out or did not

#[derive(Clone, Copy)]
struct Run {
    settings: Settings,
    long: usize,
    right: u64,
    wrong: u64,
}

fn begun() -> Run {
    Run {
        settings: Settings::default(),
        long: 0,
        right: 0,
        wrong: 0,
    }
}

fn count(run: &mut Run, same: bool) {
    if same {
        run.right = run.right.wrapping_add(1);
    } else {
        run.wrong = run.wrong.wrapping_add(1);
    }
}

fn row_in(n: [u64; 24]) -> Row {
    answer(n[14], n[15], n[16], n[17])
}

fn state_in(n: [u64; 24]) -> State {
    State {
        used: n[18],
        total: n[19],
        declined: n[20],
        buckets: n[21],
        factor: n[22],
        time: n[23],
    }
}

fn show(rt: &impl Print, r: Row, x: State) -> io::Result<()> {
    print!(rt; "WRONG, found {} {} {} {}", r.kind, r.x, r.y, r.z)?;
    print!(rt; " with {} {} {}", x.used, x.total, x.declined)?;
    print!(rt; " {} {} {} in: ", x.buckets, x.factor, x.time)
}

// Whether a call's answer and the key's state after it are the list's; else they are shown.
fn is_same(
    rt: &impl Print,
    s: Settings,
    a: &mut [u64],
    b: &mut [u64],
    key: &[u8],
    n: [u64; 24],
) -> io::Result<bool> {
    let c = call_of(n);
    let r = called(s, a, b, key, c);
    let x = if c.op < 10 {
        state_of(a, key)
    } else {
        state_of(b, key)
    };
    let same = r == row_in(n) && x == state_in(n);
    if !same {
        show(rt, r, x)?;
    }
    Ok(same)
}

// The call, with the first bytes of `key` for its key: they are written here from its words, the first one lowest; past 32 bytes each is an x.
fn key_call(
    rt: &impl Print,
    s: Settings,
    a: &mut [u64],
    b: &mut [u64],
    key: &mut [u8],
    n: [u64; 24],
) -> io::Result<bool> {
    let len = n[2] as usize;
    if key.len() < 32 || key.len() < len {
        return Ok(false);
    }
    key[..8].copy_from_slice(&n[3].to_le_bytes());
    key[8..16].copy_from_slice(&n[4].to_le_bytes());
    key[16..24].copy_from_slice(&n[5].to_le_bytes());
    key[24..32].copy_from_slice(&n[6].to_le_bytes());
    is_same(rt, s, a, b, &key[..len], n)
}

fn call_line(
    rt: &impl Print,
    line: &[u8],
    run: &mut Run,
    a: &mut [u64],
    b: &mut [u64],
    key: &mut [u8],
) -> io::Result<()> {
    let long = run.long;
    if a.len() < long || b.len() < long {
        count(run, false);
        return Ok(());
    }
    let same = key_call(
        rt,
        run.settings,
        &mut a[..long],
        &mut b[..long],
        key,
        numbers(line),
    )?;
    if !same {
        rt.write_all(line)?;
        println!(rt)?;
    }
    count(run, same);
    Ok(())
}

// The words of a room of these slots and ring, 0 where there is none.
fn room_words(slots: u64, ring: u64) -> usize {
    if layout::MOST_SLOTS < slots || layout::MOST_RING < ring {
        return 0;
    }
    let n = slots as usize;
    let r = ring as usize;
    layout::HEADER + layout::ENTRY * n + n * (layout::FIXED + layout::CELL * r)
}

fn make_room(w: &mut [u64], long: usize, slots: u64, ring: u64) -> bool {
    long <= w.len() && room::make(&mut w[..long], slots, ring).is_ok()
}

fn history_line(line: &[u8], run: &mut Run, a: &mut [u64], b: &mut [u64]) {
    let n: [u64; 6] = numbers(line);
    let long = room_words(n[0], n[1]);
    let made = make_room(a, long, n[0], n[1]);
    let other = make_room(b, long, n[0], n[1]);
    run.settings = settings_of(n);
    run.long = long;
    if !(made && other) {
        count(run, false);
    }
}

fn damage(w: &mut [u64], at: usize, new: u64) {
    if let Some(word) = w.get_mut(at) {
        *word = new;
    }
}

// Damages a word: which room, where, and what it is then.
fn word_line(line: &[u8], a: &mut [u64], b: &mut [u64]) {
    let n: [u64; 3] = numbers(line);
    if n[0] == 0 {
        damage(a, n[1] as usize, n[2]);
    } else {
        damage(b, n[1] as usize, n[2]);
    }
}

fn summary(rt: &impl Print, run: Run) -> io::Result<()> {
    println!(rt; "  {} calls came out, {} did not", run.right, run.wrong)
}

// What is left of the counts of the heading before, if there was one, is told; the new one begins.
fn heading(rt: &impl Print, line: &[u8], run: &mut Run) -> io::Result<()> {
    if run.long != 0 {
        summary(rt, *run)?;
    }
    rt.write_all(line)?;
    println!(rt)?;
    run.right = 0;
    run.wrong = 0;
    Ok(())
}

// A line, by the byte that it begins with.
fn take_line(
    rt: &impl Print,
    kind: u8,
    line: &[u8],
    run: &mut Run,
    a: &mut [u64],
    b: &mut [u64],
    key: &mut [u8],
) -> io::Result<()> {
    match kind {
        b'#' => heading(rt, line, run),
        b'h' => {
            history_line(line, run, a, b);
            Ok(())
        }
        b'c' => call_line(rt, line, run, a, b, key),
        _ => {
            word_line(line, a, b);
            Ok(())
        }
    }
}

fn play(
    rt: &impl Print,
    text: &[u8],
    a: &mut [u64],
    b: &mut [u64],
    key: &mut [u8],
) -> io::Result<()> {
    let mut run = begun();
    for line in text.split(|b| *b == b'\n') {
        if let [kind, ..] = line {
            take_line(rt, *kind, line, &mut run, a, b, key)?;
        }
    }
    summary(rt, run)
}

// Reads until `buf` is full or the input ends, and says how many bytes it put at the start of `buf`. By a loop, since `read_to_end` would
// want a heap.
fn read_full<R: Read>(from: &mut R, buf: &mut [u8]) -> io::Result<usize>
    ensures { IfOk result (λ n. n ≤ length buf.new) }
{
    let mut done = 0;
    while done < buf.len() {
        let n = from.read(&mut buf[done..])?;
        if n == 0 {
            return Ok(done);
        }
        done += n;
    }
    Ok(done)
}

fn main(rt: HostRuntime) -> io::Result<()> {
    let mut input = [0u8; 400000];
    let n = read_full(&mut rt.stdin(), &mut input)?;
    let mut a = [0u64; 4096];
    let mut b = [0u64; 4096];
    let mut key = [120u8; 64];
    play(&rt, &input[..n], &mut a, &mut b, &mut key)
}
