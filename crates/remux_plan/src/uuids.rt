//! Identifiers of Segments: RFC 9559, section 5.1.2 (Info)

ghost use Rattle.std.specs.Prelude.{◌≡◌};
ghost use Rattle.remux_plan.specs.Uuids.{uuid_at, uuids_at};

/// SegmentUUID of an output, and with `--link` the ones of the previous and the next output. The highest byte is first.
#[derive(Clone, Copy, Debug, PartialEq, Eq)]
pub struct PartUuids {
    pub own: Option<u128>,
    pub before: Option<u128>,
    pub next: Option<u128>,
}

// Returns the SegmentUUID of the output with the number `number`, counted from 1, if `uuids` has one for it, or None.
// `uuids_at` calls it for the output and its neighbours.
fn uuid_at(uuids: &[u128], number: usize) -> Option<u128>
    ensures { result ≡ uuid_at uuids.now number }
{
    let k = number.checked_sub(1)?;
    uuids.get(k).copied()
}

/// Returns the identifiers in the Info of the output with the number `number`, counted from 1, for `merge` before it
/// writes the output. `uuids` are the given SegmentUUIDs. With `link` they include the ones of the previous and the
/// next output.
pub fn uuids_at(uuids: &[u128], link: bool, number: usize) -> PartUuids
    ensures { result ≡ uuids_at uuids.now link number }
{
    let own = uuid_at(uuids, number);
    if !link {
        return PartUuids {
            own,
            before: None,
            next: None,
        };
    }
    PartUuids {
        own,
        before: uuid_at(uuids, number.saturating_sub(1)),
        next: uuids.get(number).copied(),
    }
}
