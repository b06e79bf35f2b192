// The faces for C and Rust: every call over numbers and lent words. The answer goes out as a row of five words, and each face returns the row's first, the
// refusal's number or 0; of a line of `desk` that is read back the row has seven. include/frostaxle.h says it to C programmers.
#![tactic(auto)]

ghost use Rattle.std.specs.Prelude.{◌≡◌, cond, eqb, length};
ghost use Rattle.answers.specs.Rows.{refused_row, decision_row, total_row, snapshot_row, factor_row, old_rate_row, delete_row, done_row, ring_row, number_of};
ghost use Rattle.ring_length.specs.RingLength.{ring_for};
ghost use Rattle.room.specs.Room.{fits, empty};
ghost use Rattle.parties.specs.Parties.{sent};
ghost use Rattle.rules.specs.declared.RoomKind.TheVariants as Kind;
ghost use Rattle.clearing.specs.Clear as Clear;
ghost use Rattle.calls.specs.Delete as Delete;
ghost use Rattle.calls.specs.Rate.{set_rate_limit};
ghost use Rattle.unnamed_set.specs.Unnamed as Unnamed;
ghost use Rattle.cleanup.specs.Cleanup as Cleanup;
ghost use Rattle.finding.specs.Finding.{asked};
ghost use Rattle.absolute_verdicts.specs.Calls as AbsoluteCalls;
ghost use Rattle.suppressed_verdicts.specs.Calls as SuppressedCalls;
ghost use Rattle.provider.specs.Provider as Provider;
ghost use Rattle.table.specs.Table.{table_words, empty_table};
ghost use Rattle.gateway.specs.Gateway as Gateway;
ghost use Rattle.rows.specs.Plain.{Given};
ghost use Rattle.rows.specs.Lines.{LineGiven};
ghost use Rattle.inputs.specs.Inputs.{settings, rated, comparison_of, replacing, preserving};
ghost use Rattle.abi.specs.Faces.{Faced, caller_of, shown, shown_both, shown_gateway, shown_set, room_words, make_number};
ghost use Rattle.abi.specs.ReadOut.{bucket_row};

use absolute::Absolute;
use answers::HistoryUpdateMode;
use common::{RateLimit, RateLimitComparator, Refusal};
use limiter::Limiter;
use parties::Caller;
use rules::RoomKind;
use settings::Settings;
use suppressed::Suppressed;

// ---- rooms

// What is told of a making: 0, or the refusal's number.
#[tactic(auto, unfolding(answers::specs::Rows::done_row))]
fn number_of(made: Result<(), Refusal>) -> u64
    ensures { result ≡ number_of (done_row made) }
{
    match made {
        Ok(()) => 0,
        Err(refusal) => refusal.number(),
    }
}

// How many words a room needs, 0 where there is no such room.
#[unsafe(no_mangle)]
pub extern "C" fn frostaxle_room_words(slots: u64, ring: u64) -> usize
    ensures { result ≡ room_words slots ring }
{
    if slots < 1 {
        return 0;
    }
    if 64 < slots {
        return 0;
    }
    if ring < 1 {
        return 0;
    }
    if 512 < ring {
        return 0;
    }
    let n = slots as usize;
    let r = ring as usize;
    layout::HEADER + layout::ENTRY * n + n * (layout::FIXED + layout::CELL * r)
}

// How many buckets a ring must have so that its room never meets refusal 12 with these settings.
#[unsafe(no_mangle)]
pub extern "C" fn frostaxle_sufficient_ring(
    window: u64,
    bucket: u64,
    cache: u64,
    factor: f64,
    clock: u64,
    row: &mut [u64; 5],
) -> u64
    ensures { Given (ring_row (ring_for (settings window bucket cache factor clock))) result row.new }
{
    let settings = inputs::settings(window, bucket, cache, factor, clock);
    let answer = ring_length::sufficient_ring(settings);
    rows::give(rows::ring_row(answer), row)
}

// Makes an empty room.
#[unsafe(no_mangle)]
pub extern "C" fn frostaxle_make(room: &mut [u64], slots: u64, ring: u64) -> u64
    ensures value { result ≡ make_number (fits slots ring (length room.old)) }
    ensures room_after { room.new ≡ cond (fits slots ring (length room.old)) (empty slots ring) room.old }
{
    number_of(room::make(room, slots, ring))
}

// Who calls, by the numbers that a face is given.
fn caller_of(party: u64, first: u64, second: u64) -> Caller
    ensures { result ≡ caller_of party first second }
{
    Caller {
        party,
        first,
        second,
    }
}

// A set whose numbers name no comparator or no mode.
fn unnamed(
    kind: RoomKind,
    settings: Settings,
    room: &[u64],
    reading: u64,
    caller: Caller,
    key: &[u8],
    rate: f64,
    count: u64,
    row: &mut [u64; 5],
) -> u64
    ensures { Given (refused_row (Unnamed.refusal kind settings room.now reading (sent caller key.now) (rated rate) count)) result
        row.new }
{
    let refusal = unnamed_set::refusal(
        kind,
        settings,
        room,
        reading,
        caller,
        key,
        RateLimit(rate),
        count,
    );
    rows::give(rows::refused_row(refusal.number()), row)
}

// A set of either limiter, once its numbers are read.
fn set(
    kind: RoomKind,
    settings: Settings,
    room: &mut [u64],
    reading: u64,
    caller: Caller,
    key: &[u8],
    rate: f64,
    count: u64,
    comparison: Option<RateLimitComparator>,
    mode: Option<HistoryUpdateMode>,
    row: &mut [u64; 5],
) -> u64
    ensures { Faced (shown_set kind settings room.old reading (sent caller key.now) (rated rate) comparison count mode) result
        row.new room.new }
{
    let (Some(c), Some(m)) = (comparison, mode) else {
        return unnamed(kind, settings, room, reading, caller, key, rate, count, row);
    };
    let answer = calls::set(
        kind,
        settings,
        room,
        reading,
        caller,
        key,
        RateLimit(rate),
        c,
        count,
        m,
    );
    rows::give(rows::set_row(answer), row)
}

// ---- the absolute limiter

// Counts `count` for a key, where it is allowed.
#[unsafe(no_mangle)]
pub extern "C" fn frostaxle_absolute_inc(
    window: u64,
    bucket: u64,
    cache: u64,
    factor: f64,
    clock: u64,
    room: &mut [u64],
    reading: u64,
    party: u64,
    first: u64,
    second: u64,
    key: &[u8],
    rate: f64,
    count: u64,
    row: &mut [u64; 5],
) -> u64
    ensures { Faced (shown decision_row (AbsoluteCalls.inc (settings window bucket cache factor clock) room.old reading
        (sent (caller_of party first second) key.now) (rated rate) count)) result row.new room.new }
{
    let settings = inputs::settings(window, bucket, cache, factor, clock);
    let caller = caller_of(party, first, second);
    let answer = absolute::inc(settings, room, reading, caller, key, RateLimit(rate), count);
    rows::give(rows::decision_row(answer), row)
}

// Whether a key is allowed, without counting.
#[unsafe(no_mangle)]
pub extern "C" fn frostaxle_absolute_is_allowed(
    window: u64,
    bucket: u64,
    cache: u64,
    factor: f64,
    clock: u64,
    room: &mut [u64],
    reading: u64,
    party: u64,
    first: u64,
    second: u64,
    key: &[u8],
    row: &mut [u64; 5],
) -> u64
    ensures { Faced (shown decision_row (AbsoluteCalls.is_allowed (settings window bucket cache factor clock) room.old reading
        (sent (caller_of party first second) key.now))) result row.new room.new }
{
    let settings = inputs::settings(window, bucket, cache, factor, clock);
    let caller = caller_of(party, first, second);
    let answer = absolute::is_allowed(settings, room, reading, caller, key);
    rows::give(rows::decision_row(answer), row)
}

// A key's live total.
#[unsafe(no_mangle)]
pub extern "C" fn frostaxle_absolute_get(
    window: u64,
    bucket: u64,
    cache: u64,
    factor: f64,
    clock: u64,
    room: &mut [u64],
    reading: u64,
    party: u64,
    first: u64,
    second: u64,
    key: &[u8],
    row: &mut [u64; 5],
) -> u64
    ensures { Faced (shown total_row (AbsoluteCalls.get (settings window bucket cache factor clock) room.old reading
        (sent (caller_of party first second) key.now))) result row.new room.new }
{
    let settings = inputs::settings(window, bucket, cache, factor, clock);
    let caller = caller_of(party, first, second);
    let answer = absolute::get(settings, room, reading, caller, key);
    rows::give(rows::total_row(answer), row)
}

#[unsafe(no_mangle)]
pub extern "C" fn frostaxle_absolute_set_rate_limit(
    window: u64,
    bucket: u64,
    cache: u64,
    factor: f64,
    clock: u64,
    room: &mut [u64],
    reading: u64,
    party: u64,
    first: u64,
    second: u64,
    key: &[u8],
    rate: f64,
    row: &mut [u64; 5],
) -> u64
    ensures { Faced (shown old_rate_row (set_rate_limit Kind.Absolute (settings window bucket cache factor clock) room.old reading
        (sent (caller_of party first second) key.now) (rated rate))) result row.new room.new }
{
    let settings = inputs::settings(window, bucket, cache, factor, clock);
    let caller = caller_of(party, first, second);
    let answer = Absolute::set_rate_limit(settings, room, reading, caller, key, RateLimit(rate));
    rows::give(rows::old_rate_row(answer), row)
}

#[unsafe(no_mangle)]
pub extern "C" fn frostaxle_absolute_delete(
    window: u64,
    bucket: u64,
    cache: u64,
    factor: f64,
    clock: u64,
    room: &mut [u64],
    reading: u64,
    party: u64,
    first: u64,
    second: u64,
    key: &[u8],
    row: &mut [u64; 5],
) -> u64
    ensures { Faced (shown delete_row (Delete.delete Kind.Absolute (settings window bucket cache factor clock) room.old reading
        (sent (caller_of party first second) key.now))) result row.new room.new }
{
    let settings = inputs::settings(window, bucket, cache, factor, clock);
    let caller = caller_of(party, first, second);
    let answer = Absolute::delete(settings, room, reading, caller, key);
    rows::give(rows::delete_row(answer), row)
}

#[unsafe(no_mangle)]
pub extern "C" fn frostaxle_absolute_clear(
    window: u64,
    bucket: u64,
    cache: u64,
    factor: f64,
    clock: u64,
    room: &mut [u64],
    reading: u64,
    party: u64,
    first: u64,
    second: u64,
    row: &mut [u64; 5],
) -> u64
    ensures { Faced (shown done_row (Clear.clear (settings window bucket cache factor clock) room.old reading (caller_of party first second)))
        result row.new room.new }
{
    let settings = inputs::settings(window, bucket, cache, factor, clock);
    let caller = caller_of(party, first, second);
    let answer = Absolute::clear(settings, room, reading, caller);
    rows::give(rows::done_row(answer), row)
}

#[unsafe(no_mangle)]
pub extern "C" fn frostaxle_absolute_set_if(
    window: u64,
    bucket: u64,
    cache: u64,
    factor: f64,
    clock: u64,
    room: &mut [u64],
    reading: u64,
    party: u64,
    first: u64,
    second: u64,
    key: &[u8],
    rate: f64,
    count: u64,
    comparator: u64,
    operand: u64,
    row: &mut [u64; 5],
) -> u64
    ensures { Faced (shown_set Kind.Absolute (settings window bucket cache factor clock) room.old reading (sent (caller_of party first second)
        key.now) (rated rate) (comparison_of comparator operand) count replacing) result row.new room.new }
{
    let settings = inputs::settings(window, bucket, cache, factor, clock);
    let comparison = inputs::comparison_of(comparator, operand);
    let mode = Some(HistoryUpdateMode::Replace);
    set(
        RoomKind::Absolute,
        settings,
        room,
        reading,
        caller_of(party, first, second),
        key,
        rate,
        count,
        comparison,
        mode,
        row,
    )
}

#[unsafe(no_mangle)]
pub extern "C" fn frostaxle_absolute_set_if_preserve_history(
    window: u64,
    bucket: u64,
    cache: u64,
    factor: f64,
    clock: u64,
    room: &mut [u64],
    reading: u64,
    party: u64,
    first: u64,
    second: u64,
    key: &[u8],
    rate: f64,
    count: u64,
    comparator: u64,
    operand: u64,
    preservation: u64,
    row: &mut [u64; 5],
) -> u64
    ensures { Faced (shown_set Kind.Absolute (settings window bucket cache factor clock) room.old reading (sent (caller_of party first second)
        key.now) (rated rate) (comparison_of comparator operand) count (preserving preservation)) result row.new room.new }
{
    let settings = inputs::settings(window, bucket, cache, factor, clock);
    let comparison = inputs::comparison_of(comparator, operand);
    let mode = inputs::preserving(preservation);
    set(
        RoomKind::Absolute,
        settings,
        room,
        reading,
        caller_of(party, first, second),
        key,
        rate,
        count,
        comparison,
        mode,
        row,
    )
}

// Drops what is stale: `stale` is in milliseconds.
#[unsafe(no_mangle)]
pub extern "C" fn frostaxle_absolute_cleanup(
    window: u64,
    bucket: u64,
    cache: u64,
    factor: f64,
    clock: u64,
    room: &mut [u64],
    reading: u64,
    party: u64,
    first: u64,
    second: u64,
    stale: u64,
    row: &mut [u64; 5],
) -> u64
    ensures { Faced (shown done_row (Cleanup.cleanup Kind.Absolute (settings window bucket cache factor clock) room.old reading
        (caller_of party first second) stale)) result row.new room.new }
{
    let settings = inputs::settings(window, bucket, cache, factor, clock);
    let caller = caller_of(party, first, second);
    let answer = Absolute::cleanup(settings, room, reading, caller, stale);
    rows::give(rows::done_row(answer), row)
}

// ---- the suppressed limiter

// Counts, and decides by the forecast and the draw.
#[unsafe(no_mangle)]
pub extern "C" fn frostaxle_suppressed_inc(
    window: u64,
    bucket: u64,
    cache: u64,
    factor: f64,
    clock: u64,
    room: &mut [u64],
    reading: u64,
    party: u64,
    first: u64,
    second: u64,
    key: &[u8],
    rate: f64,
    count: u64,
    draw: u64,
    row: &mut [u64; 5],
) -> u64
    ensures { Faced (shown decision_row (SuppressedCalls.inc (settings window bucket cache factor clock) room.old reading
        (sent (caller_of party first second) key.now) (rated rate) count draw)) result row.new room.new }
{
    let settings = inputs::settings(window, bucket, cache, factor, clock);
    let caller = caller_of(party, first, second);
    let answer = suppressed::inc(
        settings,
        room,
        reading,
        caller,
        key,
        RateLimit(rate),
        count,
        draw,
    );
    rows::give(rows::decision_row(answer), row)
}

// A key's live totals and its factor.
#[unsafe(no_mangle)]
pub extern "C" fn frostaxle_suppressed_get(
    window: u64,
    bucket: u64,
    cache: u64,
    factor: f64,
    clock: u64,
    room: &mut [u64],
    reading: u64,
    party: u64,
    first: u64,
    second: u64,
    key: &[u8],
    row: &mut [u64; 5],
) -> u64
    ensures { Faced (shown snapshot_row (SuppressedCalls.get (settings window bucket cache factor clock) room.old reading
        (sent (caller_of party first second) key.now))) result row.new room.new }
{
    let settings = inputs::settings(window, bucket, cache, factor, clock);
    let caller = caller_of(party, first, second);
    let answer = suppressed::get(settings, room, reading, caller, key);
    rows::give(rows::snapshot_row(answer), row)
}

// A key's factor, which is cached.
#[unsafe(no_mangle)]
pub extern "C" fn frostaxle_suppressed_get_suppression_factor(
    window: u64,
    bucket: u64,
    cache: u64,
    factor: f64,
    clock: u64,
    room: &mut [u64],
    reading: u64,
    party: u64,
    first: u64,
    second: u64,
    key: &[u8],
    row: &mut [u64; 5],
) -> u64
    ensures { Faced (shown factor_row (SuppressedCalls.get_factor (settings window bucket cache factor clock) room.old reading
        (sent (caller_of party first second) key.now))) result row.new room.new }
{
    let settings = inputs::settings(window, bucket, cache, factor, clock);
    let caller = caller_of(party, first, second);
    let answer = suppressed::get_suppression_factor(settings, room, reading, caller, key);
    rows::give(rows::factor_row(answer), row)
}

#[unsafe(no_mangle)]
pub extern "C" fn frostaxle_suppressed_set_rate_limit(
    window: u64,
    bucket: u64,
    cache: u64,
    factor: f64,
    clock: u64,
    room: &mut [u64],
    reading: u64,
    party: u64,
    first: u64,
    second: u64,
    key: &[u8],
    rate: f64,
    row: &mut [u64; 5],
) -> u64
    ensures { Faced (shown old_rate_row (set_rate_limit Kind.Suppressed (settings window bucket cache factor clock) room.old reading
        (sent (caller_of party first second) key.now) (rated rate))) result row.new room.new }
{
    let settings = inputs::settings(window, bucket, cache, factor, clock);
    let caller = caller_of(party, first, second);
    let answer = Suppressed::set_rate_limit(settings, room, reading, caller, key, RateLimit(rate));
    rows::give(rows::old_rate_row(answer), row)
}

#[unsafe(no_mangle)]
pub extern "C" fn frostaxle_suppressed_delete(
    window: u64,
    bucket: u64,
    cache: u64,
    factor: f64,
    clock: u64,
    room: &mut [u64],
    reading: u64,
    party: u64,
    first: u64,
    second: u64,
    key: &[u8],
    row: &mut [u64; 5],
) -> u64
    ensures { Faced (shown delete_row (Delete.delete Kind.Suppressed (settings window bucket cache factor clock) room.old reading
        (sent (caller_of party first second) key.now))) result row.new room.new }
{
    let settings = inputs::settings(window, bucket, cache, factor, clock);
    let caller = caller_of(party, first, second);
    let answer = Suppressed::delete(settings, room, reading, caller, key);
    rows::give(rows::delete_row(answer), row)
}

#[unsafe(no_mangle)]
pub extern "C" fn frostaxle_suppressed_clear(
    window: u64,
    bucket: u64,
    cache: u64,
    factor: f64,
    clock: u64,
    room: &mut [u64],
    reading: u64,
    party: u64,
    first: u64,
    second: u64,
    row: &mut [u64; 5],
) -> u64
    ensures { Faced (shown done_row (Clear.clear (settings window bucket cache factor clock) room.old reading (caller_of party first second)))
        result row.new room.new }
{
    let settings = inputs::settings(window, bucket, cache, factor, clock);
    let caller = caller_of(party, first, second);
    let answer = Suppressed::clear(settings, room, reading, caller);
    rows::give(rows::done_row(answer), row)
}

#[unsafe(no_mangle)]
pub extern "C" fn frostaxle_suppressed_set_if(
    window: u64,
    bucket: u64,
    cache: u64,
    factor: f64,
    clock: u64,
    room: &mut [u64],
    reading: u64,
    party: u64,
    first: u64,
    second: u64,
    key: &[u8],
    rate: f64,
    count: u64,
    comparator: u64,
    operand: u64,
    row: &mut [u64; 5],
) -> u64
    ensures { Faced (shown_set Kind.Suppressed (settings window bucket cache factor clock) room.old reading (sent (caller_of party first second)
        key.now) (rated rate) (comparison_of comparator operand) count replacing) result row.new room.new }
{
    let settings = inputs::settings(window, bucket, cache, factor, clock);
    let comparison = inputs::comparison_of(comparator, operand);
    let mode = Some(HistoryUpdateMode::Replace);
    set(
        RoomKind::Suppressed,
        settings,
        room,
        reading,
        caller_of(party, first, second),
        key,
        rate,
        count,
        comparison,
        mode,
        row,
    )
}

#[unsafe(no_mangle)]
pub extern "C" fn frostaxle_suppressed_set_if_preserve_history(
    window: u64,
    bucket: u64,
    cache: u64,
    factor: f64,
    clock: u64,
    room: &mut [u64],
    reading: u64,
    party: u64,
    first: u64,
    second: u64,
    key: &[u8],
    rate: f64,
    count: u64,
    comparator: u64,
    operand: u64,
    preservation: u64,
    row: &mut [u64; 5],
) -> u64
    ensures { Faced (shown_set Kind.Suppressed (settings window bucket cache factor clock) room.old reading (sent (caller_of party first second)
        key.now) (rated rate) (comparison_of comparator operand) count (preserving preservation)) result row.new room.new }
{
    let settings = inputs::settings(window, bucket, cache, factor, clock);
    let comparison = inputs::comparison_of(comparator, operand);
    let mode = inputs::preserving(preservation);
    set(
        RoomKind::Suppressed,
        settings,
        room,
        reading,
        caller_of(party, first, second),
        key,
        rate,
        count,
        comparison,
        mode,
        row,
    )
}

// Drops what is stale: `stale` is in milliseconds.
#[unsafe(no_mangle)]
pub extern "C" fn frostaxle_suppressed_cleanup(
    window: u64,
    bucket: u64,
    cache: u64,
    factor: f64,
    clock: u64,
    room: &mut [u64],
    reading: u64,
    party: u64,
    first: u64,
    second: u64,
    stale: u64,
    row: &mut [u64; 5],
) -> u64
    ensures { Faced (shown done_row (Cleanup.cleanup Kind.Suppressed (settings window bucket cache factor clock) room.old reading
        (caller_of party first second) stale)) result row.new room.new }
{
    let settings = inputs::settings(window, bucket, cache, factor, clock);
    let caller = caller_of(party, first, second);
    let answer = Suppressed::cleanup(settings, room, reading, caller, stale);
    rows::give(rows::done_row(answer), row)
}

// ---- both rooms

// Cleans both rooms or neither.
#[unsafe(no_mangle)]
pub extern "C" fn frostaxle_provider_cleanup(
    window: u64,
    bucket: u64,
    cache: u64,
    factor: f64,
    clock: u64,
    absolute: &mut [u64],
    suppressed: &mut [u64],
    reading: u64,
    party: u64,
    absolute_first: u64,
    absolute_second: u64,
    suppressed_first: u64,
    suppressed_second: u64,
    stale: u64,
    row: &mut [u64; 5],
) -> u64
    ensures { Faced (shown_both (Provider.cleanup (settings window bucket cache factor clock) absolute.old suppressed.old reading
        (caller_of party absolute_first absolute_second) (caller_of party suppressed_first suppressed_second) stale)) result row.new
        (absolute.new, suppressed.new) }
{
    let settings = inputs::settings(window, bucket, cache, factor, clock);
    let one = caller_of(party, absolute_first, absolute_second);
    let other = caller_of(party, suppressed_first, suppressed_second);
    let answer = provider::cleanup(settings, absolute, suppressed, reading, one, other, stale);
    rows::give(rows::done_row(answer), row)
}

// ---- the gateway

// Makes an empty table.
#[unsafe(no_mangle)]
pub extern "C" fn frostaxle_gateway_make_table(table: &mut [u64]) -> u64
    ensures value { result ≡ make_number (eqb (length table.old) table_words) }
    ensures table_after { table.new ≡ cond (eqb (length table.old) table_words) empty_table table.old }
{
    number_of(gateway::make_table(table))
}

// A shot by its number: held, or what the suppressed limiter decides on a count of 1.
#[unsafe(no_mangle)]
pub extern "C" fn frostaxle_gateway_shot(
    window: u64,
    bucket: u64,
    cache: u64,
    factor: f64,
    clock: u64,
    table: &mut [u64],
    room: &mut [u64],
    reading: u64,
    party: u64,
    first: u64,
    second: u64,
    controller: &[u8],
    number: u64,
    rate: f64,
    draw: u64,
    row: &mut [u64; 5],
) -> u64
    ensures { Faced (shown_gateway (Gateway.shot (settings window bucket cache factor clock) table.old room.old reading
        (sent (caller_of party first second) controller.now) number (rated rate) draw)) result row.new (table.new, room.new) }
{
    let s = inputs::settings(window, bucket, cache, factor, clock);
    let who = caller_of(party, first, second);
    let rate = RateLimit(rate);
    let answer = gateway::shot(s, table, room, reading, who, controller, number, rate, draw);
    rows::give(rows::shot_row(answer), row)
}

// Empties the table.
#[unsafe(no_mangle)]
pub extern "C" fn frostaxle_gateway_new_season(table: &mut [u64], row: &mut [u64; 5]) -> u64
    ensures { Faced (shown done_row (Gateway.new_season table.old)) result row.new table.new }
{
    let answer = gateway::new_season(table);
    rows::give(rows::done_row(answer), row)
}

// ---- the read-out

// Bucket `at` of a key, from the oldest.
fn bucket_row(
    kind: RoomKind,
    settings: Settings,
    room: &[u64],
    party: u64,
    key: &[u8],
    at: usize,
) -> [u64; 5]
    ensures { result ≡ bucket_row kind settings room.now (asked party key.now) at }
{
    let found = match finding::find_series(kind, settings, room, party, key) {
        Ok(found) => found,
        Err(refusal) => return rows::refused_row(refusal.number()),
    };
    if found.count <= at {
        return [0, 2, 0, 0, 0];
    }
    let bucket = finding::bucket_at(room, found.slot, at);
    [0, 1, bucket.count, bucket.declined, bucket.time]
}

#[unsafe(no_mangle)]
pub extern "C" fn frostaxle_absolute_bucket(
    window: u64,
    bucket: u64,
    cache: u64,
    factor: f64,
    clock: u64,
    room: &[u64],
    party: u64,
    key: &[u8],
    at: usize,
    row: &mut [u64; 5],
) -> u64
    ensures { Given (bucket_row Kind.Absolute (settings window bucket cache factor clock) room.now (asked party key.now) at) result
        row.new }
{
    let settings = inputs::settings(window, bucket, cache, factor, clock);
    rows::give(
        bucket_row(RoomKind::Absolute, settings, room, party, key, at),
        row,
    )
}

#[unsafe(no_mangle)]
pub extern "C" fn frostaxle_suppressed_bucket(
    window: u64,
    bucket: u64,
    cache: u64,
    factor: f64,
    clock: u64,
    room: &[u64],
    party: u64,
    key: &[u8],
    at: usize,
    row: &mut [u64; 5],
) -> u64
    ensures { Given (bucket_row Kind.Suppressed (settings window bucket cache factor clock) room.now (asked party key.now) at) result
        row.new }
{
    let settings = inputs::settings(window, bucket, cache, factor, clock);
    rows::give(
        bucket_row(RoomKind::Suppressed, settings, room, party, key, at),
        row,
    )
}

// ---- the lines of `desk`

// What a line tells, of any length, without its newline.
#[unsafe(no_mangle)]
pub extern "C" fn frostaxle_read_line(line: &[u8], row: &mut [u64; 7]) -> u64
    ensures { LineGiven line.now result row.new }
{
    let answer = readback::read_line(line);
    rows::give_line(rows::line_row(answer), row)
}
