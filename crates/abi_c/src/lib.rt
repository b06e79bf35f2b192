// The exports for C, under the names of include/frostaxle.h: each calls the function of `abi` that has its name, and states its clauses again. C has no
// enums, options or generics of ours, so here stand numbers, and a function for either limiter.
#![tactic(auto)]

ghost use Rattle.std.specs.Prelude.{◌≡◌, cond, eqb, length};
ghost use Rattle.answers.specs.Rows.{decision_row, total_row, snapshot_row, factor_row, old_rate_row, delete_row, done_row, ring_row};
ghost use Rattle.ring_length.specs.RingLength.{ring_for};
ghost use Rattle.room.specs.Room.{fits, empty};
ghost use Rattle.parties.specs.Parties.{sent};
ghost use Rattle.rules.specs.declared.RoomKind.TheVariants.{Absolute, Suppressed};
ghost use Rattle.clearing.specs.Clear as Clear;
ghost use Rattle.calls.specs.Delete as Delete;
ghost use Rattle.calls.specs.Rate.{set_rate_limit};
ghost use Rattle.cleanup.specs.Cleanup as Cleanup;
ghost use Rattle.finding.specs.Finding.{asked};
ghost use Rattle.absolute_verdicts.specs.Calls as AbsoluteCalls;
ghost use Rattle.suppressed_verdicts.specs.Calls as SuppressedCalls;
ghost use Rattle.provider.specs.Provider as Provider;
ghost use Rattle.table.specs.Table.{table_words, empty_table};
ghost use Rattle.gateway.specs.Gateway as Gateway;
ghost use Rattle.rows.specs.Plain.{Given};
ghost use Rattle.rows.specs.Lines.{LineGiven};
ghost use Rattle.inputs.specs.Inputs.{settings, rated, comparison_of, replacing, preserving};
ghost use Rattle.abi.specs.Faces.{Faced, caller_of, shown, shown_both, shown_gateway, shown_set, room_words, make_number};
ghost use Rattle.abi.specs.ReadOut.{bucket_row};

// ---- rooms

// How many words a room needs, 0 where there is no such room.
#[unsafe(no_mangle)]
pub extern "C" fn frostaxle_room_words(slots: u64, ring: u64) -> usize
    ensures { result ≡ room_words slots ring }
{
    abi::frostaxle_room_words(slots, ring)
}

// How many buckets a ring must have so that its room never meets refusal 12 with these settings.
#[unsafe(no_mangle)]
pub extern "C" fn frostaxle_sufficient_ring(
    window: u64,
    bucket: u64,
    cache: u64,
    factor: f64,
    clock: u64,
    row: &mut [u64; 5],
) -> u64
    ensures { Given (ring_row (ring_for (settings window bucket cache factor clock))) result row.new }
{
    abi::frostaxle_sufficient_ring(window, bucket, cache, factor, clock, row)
}

// Makes an empty room.
#[unsafe(no_mangle)]
pub extern "C" fn frostaxle_make(room: &mut [u64], slots: u64, ring: u64) -> u64
    ensures value { result ≡ make_number (fits slots ring (length room.old)) }
    ensures room_after { room.new ≡ cond (fits slots ring (length room.old)) (empty slots ring) room.old }
{
    abi::frostaxle_make(room, slots, ring)
}

// ---- the absolute limiter

// Counts `count` for a key, where it is allowed.
#[unsafe(no_mangle)]
pub extern "C" fn frostaxle_absolute_inc(
    window: u64,
    bucket: u64,
    cache: u64,
    factor: f64,
    clock: u64,
    room: &mut [u64],
    reading: u64,
    party: u64,
    first: u64,
    second: u64,
    key: &[u8],
    rate: f64,
    count: u64,
    row: &mut [u64; 5],
) -> u64
    ensures { Faced (shown decision_row (AbsoluteCalls.inc (settings window bucket cache factor clock) room.old reading
        (sent (caller_of party first second) key.now) (rated rate) count)) result row.new room.new }
{
    abi::frostaxle_absolute_inc(
        window, bucket, cache, factor, clock, room, reading, party, first, second, key, rate,
        count, row,
    )
}

// Whether a key is allowed, without counting.
#[unsafe(no_mangle)]
pub extern "C" fn frostaxle_absolute_is_allowed(
    window: u64,
    bucket: u64,
    cache: u64,
    factor: f64,
    clock: u64,
    room: &mut [u64],
    reading: u64,
    party: u64,
    first: u64,
    second: u64,
    key: &[u8],
    row: &mut [u64; 5],
) -> u64
    ensures { Faced (shown decision_row (AbsoluteCalls.is_allowed (settings window bucket cache factor clock) room.old reading
        (sent (caller_of party first second) key.now))) result row.new room.new }
{
    abi::frostaxle_absolute_is_allowed(
        window, bucket, cache, factor, clock, room, reading, party, first, second, key, row,
    )
}

// A key's live total.
#[unsafe(no_mangle)]
pub extern "C" fn frostaxle_absolute_get(
    window: u64,
    bucket: u64,
    cache: u64,
    factor: f64,
    clock: u64,
    room: &mut [u64],
    reading: u64,
    party: u64,
    first: u64,
    second: u64,
    key: &[u8],
    row: &mut [u64; 5],
) -> u64
    ensures { Faced (shown total_row (AbsoluteCalls.get (settings window bucket cache factor clock) room.old reading
        (sent (caller_of party first second) key.now))) result row.new room.new }
{
    abi::frostaxle_absolute_get(
        window, bucket, cache, factor, clock, room, reading, party, first, second, key, row,
    )
}

#[unsafe(no_mangle)]
pub extern "C" fn frostaxle_absolute_set_rate_limit(
    window: u64,
    bucket: u64,
    cache: u64,
    factor: f64,
    clock: u64,
    room: &mut [u64],
    reading: u64,
    party: u64,
    first: u64,
    second: u64,
    key: &[u8],
    rate: f64,
    row: &mut [u64; 5],
) -> u64
    ensures { Faced (shown old_rate_row (set_rate_limit Absolute (settings window bucket cache factor clock) room.old reading
        (sent (caller_of party first second) key.now) (rated rate))) result row.new room.new }
{
    abi::frostaxle_absolute_set_rate_limit(
        window, bucket, cache, factor, clock, room, reading, party, first, second, key, rate, row,
    )
}

#[unsafe(no_mangle)]
pub extern "C" fn frostaxle_absolute_delete(
    window: u64,
    bucket: u64,
    cache: u64,
    factor: f64,
    clock: u64,
    room: &mut [u64],
    reading: u64,
    party: u64,
    first: u64,
    second: u64,
    key: &[u8],
    row: &mut [u64; 5],
) -> u64
    ensures { Faced (shown delete_row (Delete.delete Absolute (settings window bucket cache factor clock) room.old reading
        (sent (caller_of party first second) key.now))) result row.new room.new }
{
    abi::frostaxle_absolute_delete(
        window, bucket, cache, factor, clock, room, reading, party, first, second, key, row,
    )
}

#[unsafe(no_mangle)]
pub extern "C" fn frostaxle_absolute_clear(
    window: u64,
    bucket: u64,
    cache: u64,
    factor: f64,
    clock: u64,
    room: &mut [u64],
    reading: u64,
    party: u64,
    first: u64,
    second: u64,
    row: &mut [u64; 5],
) -> u64
    ensures { Faced (shown done_row (Clear.clear (settings window bucket cache factor clock) room.old reading (caller_of party first second)))
        result row.new room.new }
{
    abi::frostaxle_absolute_clear(
        window, bucket, cache, factor, clock, room, reading, party, first, second, row,
    )
}

#[unsafe(no_mangle)]
pub extern "C" fn frostaxle_absolute_set_if(
    window: u64,
    bucket: u64,
    cache: u64,
    factor: f64,
    clock: u64,
    room: &mut [u64],
    reading: u64,
    party: u64,
    first: u64,
    second: u64,
    key: &[u8],
    rate: f64,
    count: u64,
    comparator: u64,
    operand: u64,
    row: &mut [u64; 5],
) -> u64
    ensures { Faced (shown_set Absolute (settings window bucket cache factor clock) room.old reading (sent (caller_of party first second)
        key.now) (rated rate) (comparison_of comparator operand) count replacing) result row.new room.new }
{
    abi::frostaxle_absolute_set_if(
        window, bucket, cache, factor, clock, room, reading, party, first, second, key, rate,
        count, comparator, operand, row,
    )
}

#[unsafe(no_mangle)]
pub extern "C" fn frostaxle_absolute_set_if_preserve_history(
    window: u64,
    bucket: u64,
    cache: u64,
    factor: f64,
    clock: u64,
    room: &mut [u64],
    reading: u64,
    party: u64,
    first: u64,
    second: u64,
    key: &[u8],
    rate: f64,
    count: u64,
    comparator: u64,
    operand: u64,
    preservation: u64,
    row: &mut [u64; 5],
) -> u64
    ensures { Faced (shown_set Absolute (settings window bucket cache factor clock) room.old reading (sent (caller_of party first second)
        key.now) (rated rate) (comparison_of comparator operand) count (preserving preservation)) result row.new room.new }
{
    abi::frostaxle_absolute_set_if_preserve_history(
        window,
        bucket,
        cache,
        factor,
        clock,
        room,
        reading,
        party,
        first,
        second,
        key,
        rate,
        count,
        comparator,
        operand,
        preservation,
        row,
    )
}

// Drops what is stale: `stale` is in milliseconds.
#[unsafe(no_mangle)]
pub extern "C" fn frostaxle_absolute_cleanup(
    window: u64,
    bucket: u64,
    cache: u64,
    factor: f64,
    clock: u64,
    room: &mut [u64],
    reading: u64,
    party: u64,
    first: u64,
    second: u64,
    stale: u64,
    row: &mut [u64; 5],
) -> u64
    ensures { Faced (shown done_row (Cleanup.cleanup Absolute (settings window bucket cache factor clock) room.old reading
        (caller_of party first second) stale)) result row.new room.new }
{
    abi::frostaxle_absolute_cleanup(
        window, bucket, cache, factor, clock, room, reading, party, first, second, stale, row,
    )
}

// ---- the suppressed limiter

// Counts, and decides by the forecast and the draw.
#[unsafe(no_mangle)]
pub extern "C" fn frostaxle_suppressed_inc(
    window: u64,
    bucket: u64,
    cache: u64,
    factor: f64,
    clock: u64,
    room: &mut [u64],
    reading: u64,
    party: u64,
    first: u64,
    second: u64,
    key: &[u8],
    rate: f64,
    count: u64,
    draw: u64,
    row: &mut [u64; 5],
) -> u64
    ensures { Faced (shown decision_row (SuppressedCalls.inc (settings window bucket cache factor clock) room.old reading
        (sent (caller_of party first second) key.now) (rated rate) count draw)) result row.new room.new }
{
    abi::frostaxle_suppressed_inc(
        window, bucket, cache, factor, clock, room, reading, party, first, second, key, rate,
        count, draw, row,
    )
}

// A key's live totals and its factor.
#[unsafe(no_mangle)]
pub extern "C" fn frostaxle_suppressed_get(
    window: u64,
    bucket: u64,
    cache: u64,
    factor: f64,
    clock: u64,
    room: &mut [u64],
    reading: u64,
    party: u64,
    first: u64,
    second: u64,
    key: &[u8],
    row: &mut [u64; 5],
) -> u64
    ensures { Faced (shown snapshot_row (SuppressedCalls.get (settings window bucket cache factor clock) room.old reading
        (sent (caller_of party first second) key.now))) result row.new room.new }
{
    abi::frostaxle_suppressed_get(
        window, bucket, cache, factor, clock, room, reading, party, first, second, key, row,
    )
}

// A key's factor, which is cached.
#[unsafe(no_mangle)]
pub extern "C" fn frostaxle_suppressed_get_suppression_factor(
    window: u64,
    bucket: u64,
    cache: u64,
    factor: f64,
    clock: u64,
    room: &mut [u64],
    reading: u64,
    party: u64,
    first: u64,
    second: u64,
    key: &[u8],
    row: &mut [u64; 5],
) -> u64
    ensures { Faced (shown factor_row (SuppressedCalls.get_factor (settings window bucket cache factor clock) room.old reading
        (sent (caller_of party first second) key.now))) result row.new room.new }
{
    abi::frostaxle_suppressed_get_suppression_factor(
        window, bucket, cache, factor, clock, room, reading, party, first, second, key, row,
    )
}

#[unsafe(no_mangle)]
pub extern "C" fn frostaxle_suppressed_set_rate_limit(
    window: u64,
    bucket: u64,
    cache: u64,
    factor: f64,
    clock: u64,
    room: &mut [u64],
    reading: u64,
    party: u64,
    first: u64,
    second: u64,
    key: &[u8],
    rate: f64,
    row: &mut [u64; 5],
) -> u64
    ensures { Faced (shown old_rate_row (set_rate_limit Suppressed (settings window bucket cache factor clock) room.old reading
        (sent (caller_of party first second) key.now) (rated rate))) result row.new room.new }
{
    abi::frostaxle_suppressed_set_rate_limit(
        window, bucket, cache, factor, clock, room, reading, party, first, second, key, rate, row,
    )
}

#[unsafe(no_mangle)]
pub extern "C" fn frostaxle_suppressed_delete(
    window: u64,
    bucket: u64,
    cache: u64,
    factor: f64,
    clock: u64,
    room: &mut [u64],
    reading: u64,
    party: u64,
    first: u64,
    second: u64,
    key: &[u8],
    row: &mut [u64; 5],
) -> u64
    ensures { Faced (shown delete_row (Delete.delete Suppressed (settings window bucket cache factor clock) room.old reading
        (sent (caller_of party first second) key.now))) result row.new room.new }
{
    abi::frostaxle_suppressed_delete(
        window, bucket, cache, factor, clock, room, reading, party, first, second, key, row,
    )
}

#[unsafe(no_mangle)]
pub extern "C" fn frostaxle_suppressed_clear(
    window: u64,
    bucket: u64,
    cache: u64,
    factor: f64,
    clock: u64,
    room: &mut [u64],
    reading: u64,
    party: u64,
    first: u64,
    second: u64,
    row: &mut [u64; 5],
) -> u64
    ensures { Faced (shown done_row (Clear.clear (settings window bucket cache factor clock) room.old reading (caller_of party first second)))
        result row.new room.new }
{
    abi::frostaxle_suppressed_clear(
        window, bucket, cache, factor, clock, room, reading, party, first, second, row,
    )
}

#[unsafe(no_mangle)]
pub extern "C" fn frostaxle_suppressed_set_if(
    window: u64,
    bucket: u64,
    cache: u64,
    factor: f64,
    clock: u64,
    room: &mut [u64],
    reading: u64,
    party: u64,
    first: u64,
    second: u64,
    key: &[u8],
    rate: f64,
    count: u64,
    comparator: u64,
    operand: u64,
    row: &mut [u64; 5],
) -> u64
    ensures { Faced (shown_set Suppressed (settings window bucket cache factor clock) room.old reading (sent (caller_of party first second)
        key.now) (rated rate) (comparison_of comparator operand) count replacing) result row.new room.new }
{
    abi::frostaxle_suppressed_set_if(
        window, bucket, cache, factor, clock, room, reading, party, first, second, key, rate,
        count, comparator, operand, row,
    )
}

#[unsafe(no_mangle)]
pub extern "C" fn frostaxle_suppressed_set_if_preserve_history(
    window: u64,
    bucket: u64,
    cache: u64,
    factor: f64,
    clock: u64,
    room: &mut [u64],
    reading: u64,
    party: u64,
    first: u64,
    second: u64,
    key: &[u8],
    rate: f64,
    count: u64,
    comparator: u64,
    operand: u64,
    preservation: u64,
    row: &mut [u64; 5],
) -> u64
    ensures { Faced (shown_set Suppressed (settings window bucket cache factor clock) room.old reading (sent (caller_of party first second)
        key.now) (rated rate) (comparison_of comparator operand) count (preserving preservation)) result row.new room.new }
{
    abi::frostaxle_suppressed_set_if_preserve_history(
        window,
        bucket,
        cache,
        factor,
        clock,
        room,
        reading,
        party,
        first,
        second,
        key,
        rate,
        count,
        comparator,
        operand,
        preservation,
        row,
    )
}

// Drops what is stale: `stale` is in milliseconds.
#[unsafe(no_mangle)]
pub extern "C" fn frostaxle_suppressed_cleanup(
    window: u64,
    bucket: u64,
    cache: u64,
    factor: f64,
    clock: u64,
    room: &mut [u64],
    reading: u64,
    party: u64,
    first: u64,
    second: u64,
    stale: u64,
    row: &mut [u64; 5],
) -> u64
    ensures { Faced (shown done_row (Cleanup.cleanup Suppressed (settings window bucket cache factor clock) room.old reading
        (caller_of party first second) stale)) result row.new room.new }
{
    abi::frostaxle_suppressed_cleanup(
        window, bucket, cache, factor, clock, room, reading, party, first, second, stale, row,
    )
}

// ---- both rooms

// Cleans both rooms or neither.
#[unsafe(no_mangle)]
pub extern "C" fn frostaxle_provider_cleanup(
    window: u64,
    bucket: u64,
    cache: u64,
    factor: f64,
    clock: u64,
    absolute: &mut [u64],
    suppressed: &mut [u64],
    reading: u64,
    party: u64,
    absolute_first: u64,
    absolute_second: u64,
    suppressed_first: u64,
    suppressed_second: u64,
    stale: u64,
    row: &mut [u64; 5],
) -> u64
    ensures { Faced (shown_both (Provider.cleanup (settings window bucket cache factor clock) absolute.old suppressed.old reading
        (caller_of party absolute_first absolute_second) (caller_of party suppressed_first suppressed_second) stale)) result row.new
        (absolute.new, suppressed.new) }
{
    abi::frostaxle_provider_cleanup(
        window,
        bucket,
        cache,
        factor,
        clock,
        absolute,
        suppressed,
        reading,
        party,
        absolute_first,
        absolute_second,
        suppressed_first,
        suppressed_second,
        stale,
        row,
    )
}

// ---- the gateway

// Makes an empty table.
#[unsafe(no_mangle)]
pub extern "C" fn frostaxle_gateway_make_table(table: &mut [u64]) -> u64
    ensures value { result ≡ make_number (eqb (length table.old) table_words) }
    ensures table_after { table.new ≡ cond (eqb (length table.old) table_words) empty_table table.old }
{
    abi::frostaxle_gateway_make_table(table)
}

// A shot by its number: held, or what the suppressed limiter decides on a count of 1.
#[unsafe(no_mangle)]
pub extern "C" fn frostaxle_gateway_shot(
    window: u64,
    bucket: u64,
    cache: u64,
    factor: f64,
    clock: u64,
    table: &mut [u64],
    room: &mut [u64],
    reading: u64,
    party: u64,
    first: u64,
    second: u64,
    controller: &[u8],
    number: u64,
    rate: f64,
    draw: u64,
    row: &mut [u64; 5],
) -> u64
    ensures { Faced (shown_gateway (Gateway.shot (settings window bucket cache factor clock) table.old room.old reading
        (sent (caller_of party first second) controller.now) number (rated rate) draw)) result row.new (table.new, room.new) }
{
    abi::frostaxle_gateway_shot(
        window, bucket, cache, factor, clock, table, room, reading, party, first, second,
        controller, number, rate, draw, row,
    )
}

// Empties the table.
#[unsafe(no_mangle)]
pub extern "C" fn frostaxle_gateway_new_season(table: &mut [u64], row: &mut [u64; 5]) -> u64
    ensures { Faced (shown done_row (Gateway.new_season table.old)) result row.new table.new }
{
    abi::frostaxle_gateway_new_season(table, row)
}

// ---- the read-out

#[unsafe(no_mangle)]
pub extern "C" fn frostaxle_absolute_bucket(
    window: u64,
    bucket: u64,
    cache: u64,
    factor: f64,
    clock: u64,
    room: &[u64],
    party: u64,
    key: &[u8],
    at: usize,
    row: &mut [u64; 5],
) -> u64
    ensures { Given (bucket_row Absolute (settings window bucket cache factor clock) room.now (asked party key.now) at) result
        row.new }
{
    abi::frostaxle_absolute_bucket(
        window, bucket, cache, factor, clock, room, party, key, at, row,
    )
}

#[unsafe(no_mangle)]
pub extern "C" fn frostaxle_suppressed_bucket(
    window: u64,
    bucket: u64,
    cache: u64,
    factor: f64,
    clock: u64,
    room: &[u64],
    party: u64,
    key: &[u8],
    at: usize,
    row: &mut [u64; 5],
) -> u64
    ensures { Given (bucket_row Suppressed (settings window bucket cache factor clock) room.now (asked party key.now) at) result
        row.new }
{
    abi::frostaxle_suppressed_bucket(
        window, bucket, cache, factor, clock, room, party, key, at, row,
    )
}

// ---- the lines of `desk`

// What a line tells, of any length, without its newline.
#[unsafe(no_mangle)]
pub extern "C" fn frostaxle_read_line(line: &[u8], row: &mut [u64; 7]) -> u64
    ensures { LineGiven line.now result row.new }
{
    abi::frostaxle_read_line(line, row)
}
