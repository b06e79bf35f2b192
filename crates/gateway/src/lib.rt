// A gateway that knows a shot by its number. All refusals are settled before the first word is written: the limiter settles its own,
// and the table is written last.
#![tactic(auto)]

ghost use Rattle.std.specs.Prelude.{◌≡◌};
ghost use Rattle.common.specs.Refusals.{unless};
ghost use Rattle.parties.specs.Parties.{sent};
ghost use Rattle.rules.specs.Suppressed.{admits};
ghost use Rattle.judge.specs.Verdict as Room;
ghost use Rattle.table.specs.Table.{TableMade, Stands, seen_at, seen_last};
ghost use Rattle.gateway.specs.Gateway.{as_shot, shot, new_season, Told};
ghost use Rattle.gateway.specs.Steps.{again, stops, asked};

use answers::{RateLimitDecision, ShotOutcome};
use common::{RateLimit, Refusal};
use parties::Caller;
use settings::Settings;
use table::Looked;

// Makes an empty table of the lent words, or says that they do not fit and leaves them.
pub fn make_table(table: &mut [u64]) -> Result<(), Refusal>
    ensures { TableMade table.old result table.new }
{
    table::make(table)
}

// Empties a table.
pub fn new_season(table: &mut [u64]) -> Result<(), Refusal>
    ensures { Room.Told (new_season table.old) result table.new }
{
    if !table::sized(table) {
        return Err(Refusal::BAD_ROOM);
    }
    room::zero(table);
    Ok(())
}

// Whether it is the last number again, of a controller that has one.
#[tactic(auto, unfolding(crate::specs::Steps::again))]
fn is_again(seen: Option<Looked>, number: u64) -> bool
    ensures { result ≡ again (seen_last seen) number }
{
    match seen {
        Some(seen) => seen.last != 0 && number == seen.last,
        None => false,
    }
}

// Where a shot's controller stands, or what refuses the shot before the limiter is asked. Where the table is unsound, settings out of range go before its 5.
#[tactic(auto, unfolding(crate::specs::Steps::stops, crate::specs::Steps::unsoundness))]
fn place(settings: Settings, seen: Option<Looked>, number: u64) -> Result<usize, Refusal>
    ensures { result ≡ unless (stops settings seen number) (seen_at seen) }
{
    if !table::is_number(number) {
        return Err(Refusal::BAD_NUMBER);
    }
    let Some(seen) = seen else {
        settings.check()?;
        return Err(Refusal::BAD_ROOM);
    };
    if number < seen.last {
        return Err(Refusal::OLD_NUMBER);
    }
    if seen.at == table::MOST_CONTROLLERS {
        return Err(Refusal::TABLE_FULL);
    }
    Ok(seen.at)
}

fn is_admitted(decision: RateLimitDecision) -> bool
    ensures { result ≡ admits decision }
{
    match decision {
        RateLimitDecision::Allowed => true,
        RateLimitDecision::Rejected { .. } => false,
        RateLimitDecision::Suppressed { is_allowed, .. } => is_allowed,
        RateLimitDecision::Refused(_) => false,
    }
}

// The limiter's answer as a shot's.
fn as_shot(decision: RateLimitDecision) -> Result<ShotOutcome, Refusal>
    ensures { result ≡ as_shot decision }
{
    match decision {
        RateLimitDecision::Refused(n) => Err(Refusal(n)),
        _ => Ok(ShotOutcome::Decided(decision)),
    }
}

// Asks the limiter, and remembers the number if it is admitted. `at` is where the controller stands.
fn ask(
    settings: Settings,
    table: &mut [u64],
    room: &mut [u64],
    reading: u64,
    caller: Caller,
    controller: &[u8],
    at: usize,
    number: u64,
    rate: RateLimit,
    draw: u64,
) -> Result<ShotOutcome, Refusal>
    requires { Stands table.old controller.now at }
    ensures { Told (asked settings table.old room.old reading (sent caller controller.now) number rate draw) result
        table.new room.new }
{
    let decision = suppressed_inc::inc(settings, room, reading, caller, controller, rate, 1, draw);
    if is_admitted(decision) {
        table::remember(table, controller, at, number);
    }
    as_shot(decision)
}

// A controller's shot: held if the table has its number already, and else the limiter's.
pub fn shot(
    settings: Settings,
    table: &mut [u64],
    room: &mut [u64],
    reading: u64,
    caller: Caller,
    controller: &[u8],
    number: u64,
    rate: RateLimit,
    draw: u64,
) -> Result<ShotOutcome, Refusal>
    ensures { Told (shot settings table.old room.old reading (sent caller controller.now) number rate draw) result
        table.new room.new }
{
    let seen = table::look(table, controller);
    if is_again(seen, number) {
        return Ok(ShotOutcome::Held);
    }
    let at = place(settings, seen, number)?;
    ask(
        settings, table, room, reading, caller, controller, at, number, rate, draw,
    )
}
