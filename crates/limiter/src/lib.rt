// The calls that both limiters have, of either kind of room: `absolute` and `suppressed` are the two kinds, and have calls of their own beside these.
#![tactic(auto)]

ghost use Rattle.judge.specs.Verdict.{Told};
ghost use Rattle.clearing.specs.Clear as Clear;
ghost use Rattle.calls.specs.Delete as Delete;
ghost use Rattle.calls.specs.Rate.{set_rate_limit};
ghost use Rattle.calls.specs.Set as Set;
ghost use Rattle.cleanup.specs.Cleanup as Cleanup;
ghost use Rattle.answers.specs.declared.HistoryUpdateMode.TheVariants.{Replace, Preserve};
ghost use Rattle.rules.specs.declared.RoomKind.{RoomKind};
ghost use Rattle.parties.specs.Parties.{sent};

use answers::{ConditionalSetOutcome, HistoryPreservation, HistoryUpdateMode};
use common::{RateLimit, RateLimitComparator, Refusal};
use parties::Caller;
use rules::RoomKind;
use settings::Settings;

pub trait Limiter {
    ghost KIND: { RoomKind };

    const KIND: RoomKind;

    final fn set_rate_limit(
        settings: Settings,
        room: &mut [u64],
        reading: u64,
        caller: Caller,
        key: &[u8],
        rate: RateLimit,
    ) -> Result<Option<RateLimit>, Refusal>
        ensures { Told (set_rate_limit KIND settings room.old reading (sent caller key.now) rate) result room.new }
    {
        calls::set_rate_limit(Self::KIND, settings, room, reading, caller, key, rate)
    }

    final fn delete(
        settings: Settings,
        room: &mut [u64],
        reading: u64,
        caller: Caller,
        key: &[u8],
    ) -> Result<Option<u64>, Refusal>
        ensures { Told (Delete.delete KIND settings room.old reading (sent caller key.now)) result room.new }
    {
        calls::delete(Self::KIND, settings, room, reading, caller, key)
    }

    final fn clear(
        settings: Settings,
        room: &mut [u64],
        reading: u64,
        caller: Caller,
    ) -> Result<(), Refusal>
        ensures { Told (Clear.clear settings room.old reading caller) result room.new }
    {
        clearing::clear(settings, room, reading, caller)
    }

    final fn set_if(
        settings: Settings,
        room: &mut [u64],
        reading: u64,
        caller: Caller,
        key: &[u8],
        rate: RateLimit,
        comparator: RateLimitComparator,
        count: u64,
    ) -> Result<ConditionalSetOutcome, Refusal>
        ensures { Told (Set.set KIND settings room.old reading (sent caller key.now) rate comparator count Replace) result
            room.new }
    {
        calls::set(
            Self::KIND,
            settings,
            room,
            reading,
            caller,
            key,
            rate,
            comparator,
            count,
            HistoryUpdateMode::Replace,
        )
    }

    final fn set_if_preserve_history(
        settings: Settings,
        room: &mut [u64],
        reading: u64,
        caller: Caller,
        key: &[u8],
        rate: RateLimit,
        comparator: RateLimitComparator,
        count: u64,
        preservation: HistoryPreservation,
    ) -> Result<ConditionalSetOutcome, Refusal>
        ensures { Told (Set.set KIND settings room.old reading (sent caller key.now) rate comparator count
            (Preserve preservation)) result room.new }
    {
        calls::set(
            Self::KIND,
            settings,
            room,
            reading,
            caller,
            key,
            rate,
            comparator,
            count,
            HistoryUpdateMode::Preserve(preservation),
        )
    }

    // Drops what is stale: `stale` is in milliseconds.
    final fn cleanup(
        settings: Settings,
        room: &mut [u64],
        reading: u64,
        caller: Caller,
        stale: u64,
    ) -> Result<(), Refusal>
        ensures { Told (Cleanup.cleanup KIND settings room.old reading caller stale) result room.new }
    {
        cleanup::cleanup(Self::KIND, settings, room, reading, caller, stale)
    }
}
