//! Writing of the frames of one block to one output.

ghost use Rattle.std.specs.Prelude.{◌≡◌, ◌≢◌, ◌<◌, ◌++◌, ◌^◌, length, not, is_some, Some, IfOk, OnOk};
ghost use Rattle.mkv_io.specs.Faults.{HasCause, is_make_failure};
ghost use Rattle.mkv_outputs.specs.Sinks.{AreOpen, WritesOutputs};
ghost use Rattle.elementary.specs.Aac.{IsAac, adts};
ghost use Rattle.elementary.specs.Avc.{IsLengthSize, annex_b};
ghost use Rattle.elementary.specs.Pgs.{segments_of};
ghost use Rattle.extractors.specs.BadFrames.{is_bad};
ghost use Rattle.extractors.specs.Codec.{CanWrite};
ghost use Rattle.extractors.specs.Times.{time_line};
ghost use Rattle.extractors.specs.Walks.{Adds, AddsFrame, AddsLent, AddsTime, CountsBad, CountsFrames, CountsTimes, annexed, as_text, headed, segmented};
ghost use Rattle.extractors.specs.declared.frame_form.FrameForm.TheVariants as form;

use crate::frame_form::FrameForm;
use crate::times::{frame_time, push_time};
use crate::track_output::TrackOutput;
use cluster_reader::Cursor;
use elementary::{
    Aac, LONGEST_FRAME, START_CODE, adts_header, is_join, is_segments, segment_at, segment_header,
    unit_at,
};
use mkv_io::{Bytes, Files, MakeFault};
use mkv_outputs::Outputs;
use std::alloc::{AllocError, Global};
use text_formats::put_srt;

/// Frame of a block, on its way to an output.
#[derive(Clone, Copy)]
struct Framed<'a> {
    /// Number of the frame in its track, counted from 1.
    number: u64,
    octets: &'a [u8],
    /// Timestamp in nanoseconds, like the duration.
    time: i64,
    duration: u64,
}

/// What an output was given of a block.
#[derive(Clone, Copy)]
pub(crate) struct Given {
    /// Number of the next frame of the output's track, counted from 1.
    pub(crate) next: u64,
    /// Number of the block's frames that can't be written in the output's form; None if the block is of another track.
    pub(crate) bad: Option<u64>,
}

/// Buffers that are reused from frame to frame; they hold one frame before it is written.
#[derive(Drop)]
pub struct Scratch {
    line: String,
    text: Bytes,
    entry: Bytes,
}

impl Scratch {
    /// Returns buffers without content, which take no memory yet, for one extraction of tracks.
    pub fn new(alloc: Global) -> Scratch {
        Scratch {
            line: String::new(alloc),
            text: Bytes::new(alloc),
            entry: Bytes::new(alloc),
        }
    }
}

/// Returns a frame as it was before the track's header stripping: `prefix`, the bytes that were removed, followed by
/// `octets`. The bytes are joined in `text` only if the prefix isn't empty. `extract` does this for codecs whose whole
/// frame is needed at once.
fn whole<'a>(text: &'a mut Bytes, prefix: &[u8], octets: &'a [u8]) -> Result<&'a [u8], AllocError>
    ensures { IfOk result (λ all. all.now ≡ prefix.now ++ octets.now) }
{
    if prefix.is_empty() {
        return Ok(octets);
    }
    text.truncate(0);
    text.append(prefix)?;
    text.append(octets)?;
    Ok(text.as_slice())
}

/// Writes the frames of the cursor's block to `output`, which has index `k` in `outputs`. It has any form except the
/// timestamps. The first frame has number `number` in its track, counted from 1. Bad frames have numbers, too, but are
/// left out; the result has how many they are. The content of `scratch` before and after the call doesn't matter. Used
/// by `give_to`.
pub fn give_frames<F: Files>(
    outputs: &mut Outputs,
    files: &mut F,
    k: usize,
    output: &TrackOutput,
    number: u64,
    cursor: &Cursor,
    scratch: &mut Scratch,
) -> Result<Given, MakeFault>
    requires below { k < length outputs.old }
    requires open { AreOpen F.Reads files.old outputs.old }
    requires step { output.now.step < 2 ^ 48 }
    requires can { CanWrite output.now.form }
    requires octets { output.now.form ≢ form.Time }
    ensures gives { AddsLent F.Files.own output.now number cursor.now files.old files.new outputs.old outputs.new k result }
    ensures number { CountsFrames output.now number cursor.now result }
    ensures bad { CountsBad output.now cursor.now result }
    ensures only { WritesOutputs F.Reads F.Files.own files.old files.new outputs.old outputs.new }
    ensures cause { HasCause is_make_failure (F.writing_faults files.old) (F.writing_faults files.new) result }
{
    let (head, body, sizes) = (cursor.head(), cursor.body(), cursor.sizes());
    let duration = head.duration.unwrap_or(0);
    let mut bad = 0;
    let mut at = 0;
    for (i, size) in sizes.iter().enumerate() {
        let end = at + *size as usize;
        let frame = Framed {
            number: number.saturating_add(i as u64),
            octets: &body[at..end],
            time: frame_time(head, i, output.step),
            duration,
        };
        let is_written = give_frame(outputs, files, k, output, frame, scratch)?;
        bad += u64::from(!is_written);
        at = end;
    }
    Ok(Given {
        next: number.saturating_add(sizes.len() as u64),
        bad: Some(bad),
    })
}

/// Writes the timestamps of the frames of the cursor's block, one line each, to `output`, which has index `k` in
/// `outputs`. The first frame has number `number` in its track, counted from 1; none is bad. The cursor needs only the
/// head of the block and the number of its frames. Used by `give_to`.
pub fn give_times<F: Files>(
    outputs: &mut Outputs,
    files: &mut F,
    k: usize,
    output: &TrackOutput,
    number: u64,
    cursor: &Cursor,
    scratch: &mut Scratch,
) -> Result<Given, MakeFault>
    requires below { k < length outputs.old }
    requires open { AreOpen F.Reads files.old outputs.old }
    requires step { output.now.step < 2 ^ 48 }
    requires times { output.now.form ≡ form.Time }
    ensures gives { AddsTime F.Files.own output.now number cursor.now files.old files.new outputs.old outputs.new k result }
    ensures number { CountsTimes output.now number cursor.now result }
    ensures bad { IfOk result (λ given. given.bad ≡ Some 0) }
    ensures only { WritesOutputs F.Reads F.Files.own files.old files.new outputs.old outputs.new }
    ensures cause { HasCause is_make_failure (F.writing_faults files.old) (F.writing_faults files.new) result }
{
    let (head, frames) = (cursor.head(), cursor.frames());
    for i in 0..frames {
        let time = frame_time(head, i as usize, output.step);
        give_time(outputs, files, k, time, &mut scratch.line)?;
    }
    Ok(Given {
        next: number.saturating_add(frames as u64),
        bad: Some(0),
    })
}

/// Writes `frame` to `output`, which has index `k` in `outputs`, in the output's form. Returns false for a bad frame,
/// which can't be written in this form, and writes nothing. `scratch` is working memory. Used by `give_frames`.
fn give_frame<F: Files>(
    outputs: &mut Outputs,
    files: &mut F,
    k: usize,
    output: &TrackOutput,
    frame: Framed<'_>,
    scratch: &mut Scratch,
) -> Result<bool, MakeFault>
    requires below { k < length outputs.old }
    requires open { AreOpen F.Reads files.old outputs.old }
    requires can { CanWrite output.now.form }
    requires octets { output.now.form ≢ form.Time }
    ensures gives { AddsFrame F.Files.own output.now frame.entry files.old files.new outputs.old outputs.new k result }
    ensures good { IfOk result (λ good. good ≡ not (is_bad output.now frame.entry.octets.now)) }
    ensures only { WritesOutputs F.Reads F.Files.own files.old files.new outputs.old outputs.new }
    ensures cause { HasCause is_make_failure (F.writing_faults files.old) (F.writing_faults files.new) result }
{
    let prefix = output.prefix.as_slice();
    match output.form {
        FrameForm::Plain => give_behind(outputs, files, k, prefix, frame.octets)?,
        FrameForm::SubRip => give_text(outputs, files, k, prefix, frame, scratch)?,
        FrameForm::AnnexB { length_size } => {
            let whole = whole(&mut scratch.text, prefix, frame.octets)?;
            return give_units(outputs, files, k, whole, length_size);
        }
        FrameForm::Adts { aac } => {
            return give_headed(outputs, files, k, prefix, frame.octets, &aac);
        }
        FrameForm::Pgs => {
            let whole = whole(&mut scratch.text, prefix, frame.octets)?;
            return give_segments(outputs, files, k, whole, &segment_header(frame.time));
        }
        FrameForm::Time => unreachable!(),
    }
    Ok(true)
}

/// Writes `prefix` and then `octets` to the output with index `k` in `outputs`: a frame, or a unit or segment after its
/// start code or header. They need no buffer. Used by `give_frame`, `give_units`, `give_segments` and `give_headed`.
fn give_behind<F: Files>(
    outputs: &mut Outputs,
    files: &mut F,
    k: usize,
    prefix: &[u8],
    octets: &[u8],
) -> Result<(), MakeFault>
    requires below { k < length outputs.old }
    requires open { AreOpen F.Reads files.old outputs.old }
    ensures gives { Adds F.Files.own files.old files.new outputs.old outputs.new k (prefix.now ++ octets.now) result }
    ensures only { WritesOutputs F.Reads F.Files.own files.old files.new outputs.old outputs.new }
    ensures cause { HasCause is_make_failure (F.writing_faults files.old) (F.writing_faults files.new) result }
{
    outputs.write(files, k, prefix)?;
    outputs.write(files, k, octets)
}

/// Writes the timestamp `time`, in nanoseconds, as a line of milliseconds to the output with index `k` in `outputs`.
/// `text` is working memory. Used by `give_times`.
fn give_time<F: Files>(
    outputs: &mut Outputs,
    files: &mut F,
    k: usize,
    time: i64,
    text: &mut String,
) -> Result<(), MakeFault>
    requires below { k < length outputs.old }
    requires open { AreOpen F.Reads files.old outputs.old }
    ensures gives { Adds F.Files.own files.old files.new outputs.old outputs.new k (time_line time) result }
    ensures only { WritesOutputs F.Reads F.Files.own files.old files.new outputs.old outputs.new }
    ensures cause { HasCause is_make_failure (F.writing_faults files.old) (F.writing_faults files.new) result }
{
    text.clear();
    push_time(text, time)?;
    outputs.write(files, k, text.as_bytes())
}

/// Writes an entry of SubRip to the output with index `k` in `outputs`; its text is `prefix` and the bytes of `frame`.
/// `scratch` is working memory. Used by `give_frame`.
fn give_text<F: Files>(
    outputs: &mut Outputs,
    files: &mut F,
    k: usize,
    prefix: &[u8],
    frame: Framed<'_>,
    scratch: &mut Scratch,
) -> Result<(), MakeFault>
    requires below { k < length outputs.old }
    requires open { AreOpen F.Reads files.old outputs.old }
    ensures gives { Adds F.Files.own files.old files.new outputs.old outputs.new k (as_text prefix.now frame.entry) result }
    ensures only { WritesOutputs F.Reads F.Files.own files.old files.new outputs.old outputs.new }
    ensures cause { HasCause is_make_failure (F.writing_faults files.old) (F.writing_faults files.new) result }
{
    put_text(prefix, frame, scratch)?;
    outputs.write(files, k, scratch.entry.as_slice())
}

/// Replaces the entry in `scratch` with an entry of SubRip whose text is `prefix` and the bytes of `frame`. Used by
/// `give_text`.
fn put_text(prefix: &[u8], frame: Framed<'_>, scratch: &mut Scratch) -> Result<(), AllocError>
    ensures { OnOk result (scratch.new.entry ≡ as_text prefix.now frame.entry) }
{
    let text = whole(&mut scratch.text, prefix, frame.octets)?;
    scratch.entry.truncate(0);
    put_srt(
        frame.number,
        frame.time,
        frame.duration,
        text,
        &mut scratch.entry,
    )
}

/// Writes the units of the whole H.264 or H.265 frame `frame`, each after a start code, to the output with index `k` in
/// `outputs`. Returns false if the units don't fill the frame exactly, and writes nothing. `length_size` is the number
/// of bytes of each length before a unit. Used by `give_frame`.
fn give_units<F: Files>(
    outputs: &mut Outputs,
    files: &mut F,
    k: usize,
    frame: &[u8],
    length_size: u8,
) -> Result<bool, MakeFault>
    requires below { k < length outputs.old }
    requires open { AreOpen F.Reads files.old outputs.old }
    requires size { IsLengthSize length_size }
    ensures gives { Adds F.Files.own files.old files.new outputs.old outputs.new k (annexed length_size frame.now) result }
    ensures good { IfOk result (λ good. good ≡ is_some (annex_b length_size frame.now)) }
    ensures only { WritesOutputs F.Reads F.Files.own files.old files.new outputs.old outputs.new }
    ensures cause { HasCause is_make_failure (F.writing_faults files.old) (F.writing_faults files.new) result }
{
    if !is_join(frame, length_size) {
        return Ok(false);
    }
    let mut rest = frame;
    while let Some((unit, behind)) = unit_at(length_size, rest) {
        give_behind(outputs, files, k, &START_CODE, unit)?;
        rest = behind;
    }
    Ok(true)
}

/// Writes the AAC frame `prefix` and `octets` after its ADTS header, for the configuration `aac`, to the output with
/// index `k` in `outputs`. Returns false if the frame is too long for the header, and writes nothing. Used by
/// `give_frame`.
fn give_headed<F: Files>(
    outputs: &mut Outputs,
    files: &mut F,
    k: usize,
    prefix: &[u8],
    octets: &[u8],
    aac: &Aac,
) -> Result<bool, MakeFault>
    requires below { k < length outputs.old }
    requires open { AreOpen F.Reads files.old outputs.old }
    requires can { IsAac aac.now }
    ensures gives { Adds F.Files.own files.old files.new outputs.old outputs.new k (headed aac.now prefix.now octets.now) result }
    ensures good { IfOk result (λ good. good ≡ is_some (adts aac.now (prefix.now ++ octets.now))) }
    ensures only { WritesOutputs F.Reads F.Files.own files.old files.new outputs.old outputs.new }
    ensures cause { HasCause is_make_failure (F.writing_faults files.old) (F.writing_faults files.new) result }
{
    let len = prefix.len().saturating_add(octets.len());
    if len > LONGEST_FRAME {
        return Ok(false);
    }
    outputs.write(files, k, &adts_header(aac, len as u64))?;
    give_behind(outputs, files, k, prefix, octets)?;
    Ok(true)
}

/// Writes the segments of the whole PGS frame `frame`, each after the header `header`, to the output with index `k` in
/// `outputs`. Returns false if the segments don't fill the frame exactly, and writes nothing. Used by `give_frame`.
fn give_segments<F: Files>(
    outputs: &mut Outputs,
    files: &mut F,
    k: usize,
    frame: &[u8],
    header: &[u8],
) -> Result<bool, MakeFault>
    requires below { k < length outputs.old }
    requires open { AreOpen F.Reads files.old outputs.old }
    ensures gives { Adds F.Files.own files.old files.new outputs.old outputs.new k (segmented header.now frame.now) result }
    ensures good { IfOk result (λ good. good ≡ is_some (segments_of frame.now)) }
    ensures only { WritesOutputs F.Reads F.Files.own files.old files.new outputs.old outputs.new }
    ensures cause { HasCause is_make_failure (F.writing_faults files.old) (F.writing_faults files.new) result }
{
    if !is_segments(frame) {
        return Ok(false);
    }
    let mut rest = frame;
    while let Some((segment, behind)) = segment_at(rest) {
        give_behind(outputs, files, k, header, segment)?;
        rest = behind;
    }
    Ok(true)
}
