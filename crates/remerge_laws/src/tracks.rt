//! Laws on tracks that are written and read again: RFC 9559, section 5.1.4 (Tracks Element).

ghost use Rattle.remerge_laws.specs.OwnTracks.{OwnTracksStay};
ghost use Rattle.remerge_laws.specs.Tracks.{TracksAreRead};

use record_laws::tracks_stay;

/// States that a Tracks Element that is accepted is accepted after it was written and read, too. Its tracks have the
/// values of its entries. It is a step of the proof of `outputs_are_read_with_limits`.
pub fn tracks_are_read()
    ensures { TracksAreRead }
{}

/// States that the TrackEntries that are read from an output are written as they were by a merge without options. It is
/// a step of the proof of `entries_are_written_again`.
pub fn own_tracks_stay()
    ensures { OwnTracksStay }
{
    tracks_stay();
}
