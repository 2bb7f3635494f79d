//! Heads of SimpleBlocks and BlockGroups: RFC 9559, sections 10 (Cluster Blocks) and 11 (Timestamps).

ghost use Rattle.std.specs.Prelude.{◌≡◌, pos, ◌+ℤ◌, ℤ, [], IfOk};
ghost use Rattle.block_reader.specs.Lendable.{CanLead};
ghost use Rattle.block_reader.specs.Says.{MakesGroupHead, MakesSimpleHead, TellsTimes};

use crate::content::{Spelled, has_flag, lace_of};
use crate::gathered::Gathered;
use crate::head::BlockHead;
use crate::time::{block_time, scale_all, scaled_duration};
use elements::damage;
use mkv_io::{Damage, Kind};
use mkv_schema::Header;
use mkv_schema::ids::BLOCK;

const KEY: u8 = 0x80;

const INVISIBLE: u8 = 0x08;

const DISCARDABLE: u8 = 0x01;

/// Time and duration of a BlockGroup in nanoseconds
#[derive(Clone, Copy)]
pub struct Times {
    pub time: i64,
    pub duration: Option<u64>,
}

/// Returns the head of the SimpleBlock with the header `header` and the parsed content `spelled`, or damage if its time
/// is too large (2^56 nanoseconds). Its Cluster has the Timestamp `timestamp`, in ticks of `scale` nanoseconds. Called
/// for each SimpleBlock, whether it is read whole or only its first bytes.
pub fn simple_head(
    scale: u64,
    timestamp: u64,
    header: &Header,
    spelled: &Spelled,
) -> Result<BlockHead, Damage>
    ensures exact { MakesSimpleHead scale timestamp header.now spelled.now result }
    ensures small { IfOk result (CanLead spelled.now.flags []) }
{
    let Some(time) = block_time(scale, timestamp, spelled.relative) else {
        return Err(damage(Kind::TimeTooLarge, header.id, header.offset));
    };
    Ok(BlockHead {
        track: spelled.track,
        time,
        key: has_flag(KEY, spelled.flags),
        invisible: has_flag(INVISIBLE, spelled.flags),
        discardable: has_flag(DISCARDABLE, spelled.flags),
        group: false,
        lace: lace_of(spelled.flags),
        duration: None,
        offset: header.offset,
    })
}

// Returns the time and duration of a BlockGroup in nanoseconds, or None if its time, its duration or a reference is too
// large. Its Cluster has the Timestamp `timestamp`, and its Block the time `relative` from there, in ticks of `scale`
// nanoseconds. The references in `gathered` are in nanoseconds afterwards. Used by `group_head`.
fn times_of(scale: u64, timestamp: u64, relative: i64, gathered: &mut Gathered) -> Option<Times>
    ensures exact { TellsTimes scale (pos timestamp +ℤ relative) gathered.old gathered.new result }
    ensures block { gathered.new.block ≡ gathered.old.block }
    ensures kept { gathered.new.kept ≡ gathered.old.kept }
{
    let time = block_time(scale, timestamp, relative)?;
    let duration = match gathered.duration {
        Some(ticks) => Some(scaled_duration(ticks, scale)?),
        None => None,
    };
    if !scale_all(gathered.references.as_mut_slice(), scale) {
        return None;
    }
    Some(Times { time, duration })
}

/// Returns the head of the BlockGroup at the offset `offset` of the file, with the parsed Block `spelled` and the
/// children `gathered`. Fails with the first damage: too many ReferenceBlocks, or a time that is too large. Its Cluster
/// has the Timestamp `timestamp`, in ticks of `scale` nanoseconds. Afterwards the references in `gathered` are in
/// nanoseconds. Called for each BlockGroup that is read.
pub fn group_head(
    scale: u64,
    timestamp: u64,
    offset: u64,
    spelled: &Spelled,
    gathered: &mut Gathered,
) -> Result<BlockHead, Damage>
    ensures exact { MakesGroupHead scale timestamp offset spelled.now gathered.old gathered.new result }
    ensures kept { gathered.new.kept ≡ gathered.old.kept }
    ensures small { IfOk result (CanLead spelled.now.flags gathered.new.references.items) }
{
    if let Some(reference) = gathered.too_many {
        return Err(damage(Kind::TooMany, reference.id, reference.offset));
    }
    let key = gathered.references.is_empty();
    let Some(times) = times_of(scale, timestamp, spelled.relative, gathered) else {
        return Err(damage(Kind::TimeTooLarge, BLOCK, offset));
    };
    Ok(BlockHead {
        track: spelled.track,
        time: times.time,
        key,
        invisible: has_flag(INVISIBLE, spelled.flags),
        discardable: false,
        group: true,
        lace: lace_of(spelled.flags),
        duration: times.duration,
        offset,
    })
}
