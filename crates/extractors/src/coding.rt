//! Forms of the frames of a track: RFC 9559, section 5.1.4 (Tracks Element), CodecID and CodecPrivate.

ghost use Rattle.std.specs.Prelude.{◌≡◌, IfOk};
ghost use Rattle.track_records.specs.Track.{track_of};
ghost use Rattle.file_format.specs.Entry.{codec_of};
ghost use Rattle.elementary.specs.Aac.{aac_of};
ghost use Rattle.extractors.specs.Codec.{GivesCoding, aac_coding, bare, codec_coding, codec_form, coding_of, flac_coding, form_coding, private_of};

use crate::frame_form::{CodecForm, Coding, FrameForm, UnsupportedTrack};
use elementary::{Avc, ConfigEnd, put_sets, read_aac, read_avc, read_hevc};
use mkv_io::Bytes;
use mkv_schema::ids::CODEC_PRIVATE;
use requests::Form;
use std::alloc::{AllocError, Global};
use track_records::Track;

/// First line of a timestamp file.
const TIMES_HEAD: &[u8] = b"# timestamp format v2\n";

/// First bytes of a FLAC stream and of the CodecPrivate of a FLAC track: RFC 9639, section 6.
const FLAC_MARK: &[u8] = b"fLaC";

/// Returns how `track` is written in the form `form` that the command line asks for. The coding has the bytes before
/// its first frame and the form of each frame. The inner error is the reason why the track can't be written so.
/// `extract` asks before it creates a file, and again to make its outputs.
pub fn coding_of(
    alloc: Global,
    form: Form,
    track: &Track,
) -> Result<Result<Coding, UnsupportedTrack>, AllocError>
    requires { track.now ≡ track_of track.now.entry }
    ensures { IfOk result (λ read. read ≡ coding_of form track.now.entry) }
{
    let (head, form) = match form {
        Form::Raw => (Bytes::new(alloc), FrameForm::Plain),
        Form::Full => (bytes_of(alloc, private_of(track))?, FrameForm::Plain),
        Form::ByCodec => return codec_coding(alloc, track),
        Form::Times => (bytes_of(alloc, TIMES_HEAD)?, FrameForm::Time),
    };
    Ok(Ok(Coding { head, form }))
}

/// Returns how the frames of `track` are written in the form of its codec, by its CodecID (`Form::ByCodec`). The inner
/// error is the reason why they can't be. Used by `coding_of`.
fn codec_coding(
    alloc: Global,
    track: &Track,
) -> Result<Result<Coding, UnsupportedTrack>, AllocError>
    requires { track.now ≡ track_of track.now.entry }
    ensures { IfOk result (λ read. read ≡ codec_coding (codec_of track.now.entry) (private_of track.now.entry)) }
{
    match codec_form(track.codec.as_str()) {
        Some(form) => form_coding(alloc, form, private_of(track)),
        None => Ok(Err(UnsupportedTrack::NoExtractor)),
    }
}

/// Returns the form of the codec with the CodecID `codec`, or None if `extract` knows no form for it. The comparison is
/// exact. A new codec gets a row here. Used by `codec_coding`.
fn codec_form(codec: &str) -> Option<CodecForm>
    ensures { result ≡ codec_form codec.now }
{
    match codec {
        "S_TEXT/UTF8" => Some(CodecForm::SubRip),
        "V_MPEG4/ISO/AVC" => Some(CodecForm::H264),
        "V_MPEGH/ISO/HEVC" => Some(CodecForm::H265),
        "A_AAC" => Some(CodecForm::Aac),
        "A_FLAC" => Some(CodecForm::Flac),
        "S_HDMV/PGS" => Some(CodecForm::Pgs),
        "A_AC3"
        | "A_EAC3"
        | "A_DTS"
        | "A_TRUEHD"
        | "A_MLP"
        | "A_MPEG/L1"
        | "A_MPEG/L2"
        | "A_MPEG/L3"
        | "V_MPEG1"
        | "V_MPEG2" => Some(CodecForm::Joined),
        _ => None,
    }
}

/// Returns the coding of a track in the form `form` of its codec; `private` is its CodecPrivate. The inner error is
/// BadConfig, for a CodecPrivate that is missing or invalid. Used by `codec_coding`.
fn form_coding(
    alloc: Global,
    form: CodecForm,
    private: &[u8],
) -> Result<Result<Coding, UnsupportedTrack>, AllocError>
    ensures { IfOk result (λ read. read ≡ form_coding private.now form) }
{
    match form {
        CodecForm::SubRip => Ok(Ok(bare(alloc, FrameForm::SubRip))),
        CodecForm::H264 => stream_coding(alloc, read_avc(alloc, private)),
        CodecForm::H265 => stream_coding(alloc, read_hevc(alloc, private)),
        CodecForm::Aac => Ok(aac_coding(alloc, private)),
        CodecForm::Flac => flac_coding(alloc, private),
        CodecForm::Joined => Ok(Ok(bare(alloc, FrameForm::Plain))),
        CodecForm::Pgs => Ok(Ok(bare(alloc, FrameForm::Pgs))),
    }
}

/// Returns the coding with the frames in the form `form` and no bytes before them. Used by `form_coding`.
fn bare(alloc: Global, form: FrameForm) -> Coding
    ensures { result ≡ bare form }
{
    Coding {
        head: Bytes::new(alloc),
        form,
    }
}

/// Returns the coding of an H.264 or H.265 track, whose configuration was read as `read`: an Annex B byte stream that
/// begins with its parameter sets. The inner error is BadConfig, for an invalid configuration. Used by `form_coding`.
fn stream_coding(
    alloc: Global,
    read: Result<Avc, ConfigEnd>,
) -> Result<Result<Coding, UnsupportedTrack>, AllocError>
    ensures { GivesCoding read result }
{
    let avc = match read {
        Ok(avc) => avc,
        Err(ConfigEnd::Bad) => return Ok(Err(UnsupportedTrack::BadConfig)),
        Err(ConfigEnd::Memory) => return Err(AllocError),
    };
    let mut head = Bytes::new(alloc);
    put_sets(&avc, &mut head)?;
    Ok(Ok(Coding {
        head,
        form: FrameForm::AnnexB {
            length_size: avc.length_size,
        },
    }))
}

/// Returns the coding of an AAC track with the CodecPrivate `private`: each frame after an ADTS header. Fails with
/// BadConfig if the CodecPrivate is invalid. Used by `form_coding`.
fn aac_coding(alloc: Global, private: &[u8]) -> Result<Coding, UnsupportedTrack>
    ensures { result ≡ aac_coding (aac_of private.now) }
{
    match read_aac(private) {
        Some(aac) => Ok(bare(alloc, FrameForm::Adts { aac })),
        None => Err(UnsupportedTrack::BadConfig),
    }
}

/// Returns the coding of a FLAC track with the CodecPrivate `private`: the CodecPrivate, and then the frames. The inner
/// error is BadConfig, for a CodecPrivate that is missing or doesn't begin with `fLaC`. Used by `form_coding`.
fn flac_coding(
    alloc: Global,
    private: &[u8],
) -> Result<Result<Coding, UnsupportedTrack>, AllocError>
    ensures { IfOk result (λ read. read ≡ flac_coding private.now) }
{
    if !private.starts_with(FLAC_MARK) {
        return Ok(Err(UnsupportedTrack::BadConfig));
    }
    Ok(Ok(Coding {
        head: bytes_of(alloc, private)?,
        form: FrameForm::Plain,
    }))
}

/// Returns the CodecPrivate of `track`, or no bytes if it is absent, for its coding. Used by `coding_of` and
/// `codec_coding`.
fn private_of(track: &Track) -> &[u8]
    ensures { result.now ≡ private_of track.now.entry }
{
    match track.entry.child(CODEC_PRIVATE) {
        Some(private) => private.body(),
        None => &[],
    }
}

/// Returns a copy of `octets`, the bytes before an output's first frame or each frame, that the output owns. Used by
/// `coding_of` and `output_with`.
pub fn bytes_of(alloc: Global, octets: &[u8]) -> Result<Bytes, AllocError>
    ensures { IfOk result (λ bytes. bytes ≡ octets.now) }
{
    let mut bytes = Bytes::new(alloc);
    bytes.append(octets)?;
    Ok(bytes)
}
