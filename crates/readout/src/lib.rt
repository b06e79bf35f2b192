// The read-out: a key's buckets, oldest first, written to a row of bucket records that is lent. Everything is decided before
// the first store; `read_out` alone has the row.
#![tactic(auto)]

ghost use Rattle.std.specs.Prelude.{◌≡◌};
ghost use Rattle.readout.specs.ReadOut.{read_out, Shown};
ghost use Rattle.finding.specs.Finding.{asked};

use common::Refusal;
use ring::Bucket;
use rules::RoomKind;
use settings::Settings;

// Writes the buckets, oldest first, as many as fit: the row's other places stay.
pub fn read_out(
    kind: RoomKind,
    settings: Settings,
    room: &[u64],
    party: u64,
    key: &[u8],
    row: &mut [Bucket],
) -> Result<u64, Refusal>
    ensures { Shown (read_out kind settings room.now (asked party key.now) row.old) result row.new }
{
    let found = finding::find_series(kind, settings, room, party, key)?;
    let fitting = found.count.min(row.len());
    for i in 0..fitting {
        row[i] = finding::bucket_at(room, found.slot, i);
    }
    Ok(found.count as u64)
}
