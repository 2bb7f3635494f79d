//! Timestamp of a Cluster: RFC 9559, section 5.1.3 (Cluster).

ghost use Rattle.std.specs.Prelude.{◌≡◌, ◌≤◌, IfOk};
ghost use Rattle.mkv_io.specs.Faults.{HasCause, is_failure};
ghost use Rattle.mkv_io.specs.Sources.{IfTold, IsLive, file_size};
ghost use Rattle.ebml_numbers.specs.Number.{uint_of};
ghost use Rattle.mkv_schema.specs.Element.{known, stated_end};
ghost use Rattle.mkv_schema.specs.Value.{body_of};
ghost use Rattle.elements.specs.Looks.{GoesOver};
ghost use Rattle.elements.specs.Window.{Holds};

use block_format::MAX_TIMESTAMP_LEN;
use ebml_numbers::read_uint;
use elements::{Window, known};
use mkv_io::{Failed, FileId, Reads};
use mkv_schema::Header;

/// Reads the value of a Cluster's Timestamp with the header `header`, in ticks, from `file` in `src` through `window`.
/// A walk does this for the first Timestamp of each Cluster. Used by `timestamp_child`.
pub fn read_timestamp<R: Reads>(
    window: &mut Window,
    src: &mut R,
    file: FileId,
    header: &Header,
) -> Result<u64, Failed>
    requires live { IsLive R.Reads src.old file }
    requires few { known header.now.size ≤ MAX_TIMESTAMP_LEN }
    requires inside { stated_end header.now ≤ file_size R.Reads src.old file }
    requires holds { IfTold R.Reads src.old file (λ bytes. Holds bytes window.old) }
    ensures ok { IfOk result (λ ticks. IfTold R.Reads src.old file (λ bytes. ticks ≡ uint_of (body_of bytes header.now))) }
    ensures holds { IfTold R.Reads src.old file (λ bytes. Holds bytes window.new) }
    ensures standing { R.standing src.new ≡ R.standing src.old }
    ensures cause { HasCause is_failure (R.reading_faults src.old) (R.reading_faults src.new) result }
    ensures goes { GoesOver R.Reads file header.now window.old window.new src.old src.new result }
{
    let len = known(header.size) as u16;
    window.hold(src, file, header.body, len)?;
    Ok(read_uint(window.octets_at(header.body, usize::from(len))))
}
