//! The topics of `explain`. Made by `tools/explain --write`: change its table, not this file.

/// List of all names.
#[rattlefmt::skip]
pub(crate) const TOPIC_LIST: [&str; 19] = [
    "Give one of these names: mkvsuite explain NAME",
    "",
    "command line: NoCommand UnknownCommand UnknownOption MissingValue BadValue",
    "              RepeatedOption ExtraWord NoOutput NoInput DanglingOption",
    "              AppendFirst RepeatedOutput TooManyInputs NeedsUuids NoSuchFile",
    "refused:      Missing OutputIsInput PendingEdit BadText TextTooLarge",
    "              FileTooLarge AppendDiffers NoLane TooManyLanes NotWebm",
    "              NoExtractor BadConfig",
    "edits:        NoInfo NoSuchTrack NoSuchProperty BadPropertyValue AlreadyThere",
    "              Mandatory EditTooLarge NoRoom SeekHead Tail Twin SegmentSize",
    "              BadSidecar Foreign",
    "in a file:    NotEbml BadId BadSize TooLong Truncated UnknownSize DocType",
    "              ReadVersion MaxLengths NoSegment NoTracks BadValue MissingChild",
    "              RepeatedTrack Encoding TrackScale HeaderTooLarge ShortBlock",
    "              BadLacing BlockTooLarge TimeTooLarge NoTimestamp TooMany",
    "              BadFrame",
    "warnings:     no more segment",
    "results:      wrote edited reindexed recovered nothing generated",
    "general:      error warning word fault files disk status",
];

/// Names of the group 'command line', each with its page.
#[rattlefmt::skip]
pub(crate) const WORD_TOPICS: [(&str, &[&str]); 15] = [
    ("NoCommand", &[
        "NoCommand: there is no word after the program's name.",
        "Cause: the program was called without arguments.",
        "Do: \"mkvsuite --help\" lists the commands.",
    ]),
    ("UnknownCommand", &[
        "UnknownCommand: word 0 isn't a command, or word 2 isn't a mode of extract.",
        "Cause: a file name or an option in first place (\"mkvsuite film.mkv\"), or a",
        "  missing mode (\"extract FILE 2:a.srt\").",
        "Do: \"mkvsuite COMMAND FILE ..\"; for extract name the mode: \"extract FILE",
        "  tracks 2:a.srt\".",
    ]),
    ("UnknownOption", &[
        "UnknownOption: word N isn't an option that may be here.",
        "Cause: an option that only mkvtoolnix has (--stereo-mode); --option=value; in",
        "  propedit, -s, -a or -d before the first -e.",
        "Do: see \"mkvsuite COMMAND --help\". Give a value as the next word (-o OUT).",
        "  Write a file name that begins with - as ./-NAME.",
    ]),
    ("MissingValue", &[
        "MissingValue: the command line ends, but a value, a file, a section or an edit",
        "  must follow.",
        "Cause: no FILE (\"mkvsuite info\"), no value (\"merge -o\"), no edit (\"propedit",
        "  FILE -e info\"), no --simple (\"extract FILE chapters\").",
        "Do: complete it; \"mkvsuite COMMAND --help\" shows what is required.",
    ]),
    ("BadValue", &[
        "BadValue: word N isn't a value of its option's form or range, or an element's",
        "  value isn't of its type.",
        "Cause: a word: no kind (--split 4k for size:4k), no track (-y 500 for 0:500),",
        "  a unit (0:500ms), k in upper case, a UUID with hyphens or twice. A file:",
        "  text that isn't UTF-8, a scale or track number of 0.",
        "Do: \"mkvsuite COMMAND --help\" has each form. In a Cluster: \"mkvsuite merge -o",
        "  NEW FILE\". A bad title: \"ffmpeg -i FILE -map 0 -c copy -metadata title=T",
        "  NEW.mkv\".",
    ]),
    ("RepeatedOption", &[
        "RepeatedOption: an option is given twice, but is allowed once.",
        "Cause: two outputs (-o); before one FILE two -a, or -a and -A (-d and -D, -s",
        "  and -S); before one --attach-file two --attachment-name. Or one track twice",
        "  in an option such as --language.",
        "Do: put all track IDs in one option (-a 1,2). Options before another FILE are",
        "  separate.",
    ]),
    ("ExtraWord", &[
        "ExtraWord: word N comes after a complete command, or in a wrong place.",
        "Cause: a file name with blanks that isn't quoted; two + in a row; -J with",
        "  anything but one FILE after it.",
        "Do: quote the name ('My film.mkv'). -J is the word right after merge, with one",
        "  FILE: \"merge -J FILE\".",
    ]),
    ("NoOutput", &[
        "NoOutput: merge has no -o.",
        "Cause: the output option is missing.",
        "Do: \"mkvsuite merge -o OUT FILE ..\".",
    ]),
    ("NoInput", &[
        "NoInput: merge has no input file.",
        "Cause: none is named, or an option took it as its value (\"merge -o OUT --title",
        "  film.mkv\").",
        "Do: name at least one FILE.",
    ]),
    ("DanglingOption", &[
        "DanglingOption: word N is an option for the next FILE or the next attached",
        "  file, but none follows.",
        "Cause: a file option at the end (\"merge -o OUT film.mkv -A\"), or",
        "  --attachment-name after the last --attach-file.",
        "Do: put such options before their FILE or --attach-file: \"merge -o OUT -A",
        "  film.mkv\".",
    ]),
    ("AppendFirst", &[
        "AppendFirst: there is a + before the first FILE.",
        "Cause: + appends the FILE after it to the FILE before it.",
        "Do: \"merge -o OUT first.mkv + second.mkv\", with blanks around the +.",
    ]),
    ("RepeatedOutput", &[
        "RepeatedOutput: two outputs of extract have the same name.",
        "Cause: a name was used twice.",
        "Do: give each output its own name.",
    ]),
    ("TooManyInputs", &[
        "TooManyInputs: word N is the 65th FILE, or the 257th attached file; merge",
        "  takes 64 and 256.",
        "Cause: a long list of files, often from *.mkv.",
        "Do: merge the first 64, then merge that output with the others; attach the",
        "  others so, too.",
    ]),
    ("NeedsUuids", &[
        "NeedsUuids: --link is given without --segment-uid.",
        "Cause: parts are linked by their UUIDs, and this program makes none by itself.",
        "Do: add --segment-uid with one UUID for each part: 32 hexadecimal digits",
        "  without hyphens, separated by commas (\"uuidgen | tr -d -\" prints one).",
    ]),
    ("NoSuchFile", &[
        "NoSuchFile: word N, the value of --track-order, names a FILE that isn't there,",
        "  or one after a +.",
        "Cause: each item is FILE:ID. Every FILE counts, from 0, appended ones too; but",
        "  tracks of an appended file continue those of the file before it.",
        "Do: name the tracks of the file before the +: \"merge -o OUT --track-order",
        "  2:0,0:0 a.mkv + b.mkv c.mkv\".",
    ]),
];

/// Names of the group 'refused', each with its page.
#[rattlefmt::skip]
pub(crate) const REFUSAL_TOPICS: [(&str, &[&str]); 12] = [
    ("Missing", &[
        "Missing: there is no file of this name.",
        "Cause: a wrong name or folder; a glued + (\"+two.mkv\" is a name; write \"+",
        "  two.mkv\").",
        "Do: \"ls -l NAME\" and \"pwd\" show what is there.",
    ]),
    ("OutputIsInput", &[
        "OutputIsInput: an output has the name of a file that the run reads.",
        "Cause: OUT is an input, a chapter or timestamp file, or the .mkvedit of an",
        "  input or timestamp file; with --split also an input that is named like a",
        "  part (OUT-001.mkv).",
        "Do: choose another output name. To change a file in place use propedit or",
        "  reindex. (An input under another name, as ./film.mkv, is fault: files.)",
    ]),
    ("PendingEdit", &[
        "PendingEdit: an edit of FILE was interrupted; FILE.mkvedit holds it.",
        "Cause: a power cut, a full disk or a kill during propedit or reindex. FILE may",
        "  also be the OUT of a merge.",
        "Do: \"mkvsuite recover FILE\" finishes the edit. If you began none, or if FILE",
        "  is another film by now, delete FILE.mkvedit instead: recover would change",
        "  FILE.",
    ]),
    ("BadText", &[
        "BadText: line N of a text file is wrong: SubRip, chapters or timestamps.",
        "Cause: it isn't UTF-8; an end before its start, or 0:00:01,5 for 00:00:01,500",
        "  (SubRip); XML chapters, or times of chapters without milliseconds; no first",
        "  line \"# timestamp format v2\" (or v1). In the first SubRip entry N may be the",
        "  line of its number.",
        "Do: convert to UTF-8 (\"iconv -f latin1 -t utf-8 IN >OUT\"); write each chapter",
        "  as two lines: CHAPTER01=00:00:00.000 and CHAPTER01NAME=Intro.",
    ]),
    ("TextTooLarge", &[
        "TextTooLarge: a text file is larger than this program reads.",
        "Cause: SubRip and timestamp files may have 16 MiB each (all timestamp files",
        "  together 64 MiB), a chapter file 1 MiB. Often it isn't a text file.",
        "Do: check that the name is right; otherwise shorten the file.",
    ]),
    ("FileTooLarge", &[
        "FileTooLarge: a file of --attach-file has more than 1 GiB.",
        "Cause: not a font or a picture, but a film; players read attachments into",
        "  memory.",
        "Do: attach a smaller file.",
    ]),
    ("AppendDiffers", &[
        "AppendDiffers: FILE can't be appended: its tracks differ from those before the",
        "  +.",
        "Cause: ID is AE: another number of tracks; 83: another type; 86: codec; 63A2:",
        "  codec settings; B0, BA: picture size; 9F, B5: audio; 6D80: what",
        "  --keep-encodings keeps.",
        "Do: select the same tracks of both (-A before each FILE), or re-encode one.",
        "  Without the + FILE is added as further tracks.",
    ]),
    ("NoLane", &[
        "NoLane: no track is selected, so there is nothing to write.",
        "Cause: -A, -D and -S together, or a file of other track types only (menus,",
        "  buttons).",
        "Do: \"mkvsuite info FILE\" lists the tracks; select at least one.",
    ]),
    ("TooManyLanes", &[
        "TooManyLanes: the output would have more than 64 tracks.",
        "Cause: many files without + between them: each adds its tracks.",
        "Do: put + before files that continue the previous one, or select fewer tracks",
        "  (-a, -d, -s).",
    ]),
    ("NotWebm", &[
        "NotWebm: with -w, a selected track has a codec that WebM doesn't allow, or is",
        "  copied as it is stored (--keep-encodings).",
        "Cause: WebM takes V_VP8, V_VP9, V_AV1, A_VORBIS and A_OPUS only; no SubRip,",
        "  H.264 or AAC.",
        "Do: leave -w out, or leave the track out (-a, -d, -s, -A, -D, -S).",
    ]),
    ("NoExtractor", &[
        "NoExtractor: extract has no file format of its own for the codec of track N.",
        "Cause: it writes SubRip, PGS, H.264, H.265, MPEG-1, MPEG-2, AAC, FLAC, AC-3,",
        "  E-AC-3, DTS, TrueHD, MLP and MPEG audio, but not Opus, AV1, PCM or ASS.",
        "Do: \"extract FILE tracks --raw N:OUT\" writes the frames as they are, --fullraw",
        "  the CodecPrivate before them.",
    ]),
    ("BadConfig", &[
        "BadConfig: the CodecPrivate of track N (H.264, H.265, AAC or FLAC) is missing",
        "  or wrong.",
        "Cause: without it the stream of the codec can't be written; HE-AAC of object",
        "  type 5 is refused too.",
        "Do: \"extract FILE tracks --raw N:OUT\" writes the frames as they are.",
    ]),
];

/// Names of the group 'edits', each with its page.
#[rattlefmt::skip]
pub(crate) const EDIT_TOPICS: [(&str, &[&str]); 14] = [
    ("NoInfo", &[
        "NoInfo: edit N is for info, but FILE has no Info element.",
        "Cause: a file by an unusual writer.",
        "Do: \"mkvsuite merge -o NEW FILE\" writes a file with an Info; edit that.",
    ]),
    ("NoSuchTrack", &[
        "NoSuchTrack: no track of FILE matches the section of edit N.",
        "Cause: propedit counts from 1: track 0 of info is track:1. track:s2 is the",
        "  second subtitle track.",
        "Do: \"mkvsuite info FILE\" lists the tracks with number (track:@N) and uid",
        "  (track:=UID).",
    ]),
    ("NoSuchProperty", &[
        "NoSuchProperty: the section of edit N has no property of this name.",
        "Cause: a misspelling, or title for a track (a track has a name), or name for",
        "  info.",
        "Do: \"mkvsuite propedit --help\" lists the properties.",
    ]),
    ("BadPropertyValue", &[
        "BadPropertyValue: the value of edit N doesn't suit its property.",
        "Cause: language takes three lower-case letters (fre, not fr), a flag 0 or 1,",
        "  default-duration 1 to 281474976710655 nanoseconds.",
        "Do: correct the value. A tag such as fr or pt-BR goes to language-ietf.",
    ]),
    ("AlreadyThere", &[
        "AlreadyThere: edit N adds (-a) a property that is there already.",
        "Cause: -a never changes a value.",
        "Do: -s sets the property whether it is there or not.",
    ]),
    ("Mandatory", &[
        "Mandatory: edit N deletes a property that must be there.",
        "Cause: codec-id, muxing-application and writing-application can't be deleted.",
        "Do: set another value with -s.",
    ]),
    ("EditTooLarge", &[
        "EditTooLarge: the edit would write over 16 MiB, or more than 65536 elements",
        "  into Info or Tracks.",
        "Cause: Info or Tracks is close to its limit; or reindex found about a million",
        "  keyframes.",
        "Do: make fewer or shorter changes. For an index, \"mkvsuite merge -o NEW FILE\"",
        "  writes one.",
    ]),
    ("NoRoom", &[
        "NoRoom: FILE can't hold the change. Only Info, Tracks and Cues can move.",
        "Cause: WHY is SeekHead, Tail, Twin or SegmentSize; each has its own page here.",
        "Do: \"mkvsuite merge -o NEW FILE\" writes a file that has room, and an index;",
        "  then edit NEW.",
    ]),
    ("SeekHead", &[
        "SeekHead: NoRoom: FILE has no SeekHead (have 0), or no room to write it",
        "  longer.",
        "Cause: files from live recorders and browsers often have none. reindex always",
        "  writes it; propedit only if Info or Tracks moves.",
        "Do: \"mkvsuite merge -o NEW FILE\" writes a file with an index and room for",
        "  edits.",
    ]),
    ("Tail", &[
        "Tail: NoRoom: something must go to the end of FILE, but FILE is longer or",
        "  shorter than it states.",
        "Cause: bytes follow the Segment (need < have), or FILE is cut short (need >",
        "  have).",
        "Do: \"mkvsuite merge -o NEW FILE\" copies what is readable. A shorter title or",
        "  name may fit in place.",
    ]),
    ("Twin", &[
        "Twin: NoRoom: FILE has more than one of the element that must move.",
        "Cause: an earlier tool wrote a second Info, Tracks or Cues and left the old",
        "  one.",
        "Do: \"mkvsuite merge -o NEW FILE\" writes a file with one of each.",
    ]),
    ("SegmentSize", &[
        "SegmentSize: NoRoom: the new size of the Segment doesn't fit into its size",
        "  field.",
        "Cause: the size was written in few bytes (have), and FILE grows.",
        "Do: \"mkvsuite merge -o NEW FILE\" writes it in eight bytes.",
    ]),
    ("BadSidecar", &[
        "BadSidecar: FILE.mkvedit isn't a valid journal; it is wrong first at byte N.",
        "Cause: it was damaged, cut short, or isn't this program's. FILE may be partly",
        "  edited.",
        "Do: check FILE (info, a player). If it is as it should be, delete",
        "  FILE.mkvedit; otherwise take FILE from a copy.",
    ]),
    ("Foreign", &[
        "Foreign: FILE.mkvedit was written for another file, or FILE was changed since.",
        "Cause: FILE was replaced or changed while an edit was unfinished. WHAT is",
        "  length, or octet and the place of the first byte that differs.",
        "Do: put back the file that the journal belongs to and run recover; or, if FILE",
        "  is as it should be, delete FILE.mkvedit. Nothing was written.",
    ]),
];

/// Names of the group 'in a file', each with its page.
#[rattlefmt::skip]
pub(crate) const DAMAGE_TOPICS: [(&str, &[&str]); 23] = [
    ("NotEbml", &[
        "NotEbml: FILE isn't a Matroska or WebM file: it doesn't begin with an EBML",
        "  header.",
        "Cause: an MP4, AVI, transport stream or text; SubRip whose name doesn't end in",
        "  .srt (lower case), or in a command other than merge.",
        "Do: convert it (\"ffmpeg -i IN -c copy OUT.mkv\"); rename SubRip to .srt.",
    ]),
    ("BadId", &[
        "BadId: an element begins without a valid ID.",
        "Cause: overwritten or zeroed bytes: a bad disk, an incomplete download.",
        "Do: \"mkvsuite merge -o NEW FILE\" copies what is readable, with an index.",
    ]),
    ("BadSize", &[
        "BadSize: the size of an element begins with a zero byte, which no size does.",
        "Cause: overwritten bytes.",
        "Do: \"mkvsuite merge -o NEW FILE\" copies what is readable, with an index.",
    ]),
    ("TooLong", &[
        "TooLong: an element goes past the end of its parent.",
        "Cause: overwritten bytes, or a writer that computed a size wrongly.",
        "Do: \"mkvsuite merge -o NEW FILE\" copies what is readable, with an index.",
    ]),
    ("Truncated", &[
        "Truncated: an element goes past the end of the file.",
        "Cause: the file was cut: an interrupted recording, copy or download.",
        "Do: \"mkvsuite merge -o NEW FILE\" copies all complete blocks, with an index. If",
        "  there is an original, compare its size and copy it again.",
    ]),
    ("UnknownSize", &[
        "UnknownSize: an element other than Segment or Cluster has an unknown size.",
        "Cause: a faulty live writer, or overwritten bytes.",
        "Do: \"mkvsuite merge -o NEW FILE\" copies what is readable, with an index. If",
        "  that ends with NoTracks, see there.",
    ]),
    ("DocType", &[
        "DocType: the EBML header names neither matroska nor webm.",
        "Cause: another EBML format, or a damaged header.",
        "Do: if it is Matroska, another tool that tolerates it can rewrite FILE:",
        "  \"mkvmerge -o NEW FILE\", or \"ffmpeg -i FILE -c copy NEW.mkv\".",
    ]),
    ("ReadVersion", &[
        "ReadVersion: the file asks for a later version of EBML (above 1) or Matroska",
        "  (above 4).",
        "Cause: a newer writer, or a damaged header.",
        "Do: another tool that tolerates it can rewrite FILE: \"mkvmerge -o NEW FILE\".",
        "  It must know that version.",
    ]),
    ("MaxLengths", &[
        "MaxLengths: the file allows IDs over 4 or sizes over 8 bytes.",
        "Cause: an unusual writer, or a damaged header.",
        "Do: another tool that tolerates it can rewrite FILE: \"mkvmerge -o NEW FILE\".",
    ]),
    ("NoSegment", &[
        "NoSegment: the file ends before a Segment, so it holds no media.",
        "Cause: a recording that was stopped at once, or a copy that was cut.",
        "Do: nothing can be read from it; copy or record it again.",
    ]),
    ("NoTracks", &[
        "NoTracks: no Tracks element was found, so no block can be read. info lists",
        "  such a file.",
        "Cause: damage hides it: \"mkvsuite info FILE\" then warns of the place. Or a",
        "  recording was stopped before it was written.",
        "Do: another tool that tolerates it can rewrite FILE: \"mkvmerge -o NEW FILE\".",
        "  mkvmerge and ffmpeg look for Tracks after the damage.",
    ]),
    ("MissingChild", &[
        "MissingChild: a required element is missing; ID names it.",
        "Cause: D7, 83 or 86: a track without number, type or codec; A1: a BlockGroup",
        "  without Block; 465C: an attachment without data.",
        "Do: A1: \"mkvsuite merge -o NEW FILE\". Otherwise another tool that tolerates it",
        "  can rewrite FILE: \"mkvmerge -o NEW FILE\". That track or attachment is",
        "  dropped.",
    ]),
    ("RepeatedTrack", &[
        "RepeatedTrack: two tracks have the same TrackNumber, so their blocks can't be",
        "  assigned.",
        "Cause: a faulty writer.",
        "Do: \"mkvmerge -o NEW FILE\" keeps one of them.",
    ]),
    ("Encoding", &[
        "Encoding: a selected track is compressed or encrypted; only header stripping",
        "  is undone.",
        "Cause: subtitles with zlib compression, as mkvmerge writes VobSub and PGS.",
        "  \"mkvmerge -J FILE\" shows which (content_encoding_algorithms).",
        "Do: for merge, copy it as it is stored: --keep-encodings before FILE. Or",
        "  uncompress it (\"mkvmerge -o NEW --compression -1:none FILE\"), or leave the",
        "  track out (-s '!2', -S).",
    ]),
    ("TrackScale", &[
        "TrackScale: a selected track has a TrackTimestampScale other than 1, an",
        "  obsolete element.",
        "Cause: an old writer, or a damaged value.",
        "Do: leave the track out (-a, -d, -s, -A, -D, -S); other tracks aren't",
        "  affected.",
    ]),
    ("HeaderTooLarge", &[
        "HeaderTooLarge: an element that is held in memory is larger than this program",
        "  reads or writes.",
        "Cause: limits: 16 MiB for each Info, Tracks, Chapters, Tags; 64 MiB for all of",
        "  them, of all inputs; 1 MiB for Attachments without data; 64 MiB for Cues; 64",
        "  KiB for the EBML header.",
        "Do: for OUT: fewer chapters, or -T, --no-global-tags, --no-chapters. They",
        "  don't help if FILE itself is refused; then \"mkvmerge -o NEW -T",
        "  --no-global-tags FILE\".",
    ]),
    ("ShortBlock", &[
        "ShortBlock: a block ends before its header does.",
        "Cause: overwritten bytes or a faulty writer.",
        "Do: \"mkvsuite merge -o NEW FILE\" copies what is readable, with an index.",
    ]),
    ("BadLacing", &[
        "BadLacing: a block holds several frames, and their sizes don't fit into it.",
        "Cause: overwritten bytes or a faulty writer.",
        "Do: \"mkvsuite merge -o NEW FILE\" copies what is readable, with an index.",
    ]),
    ("BlockTooLarge", &[
        "BlockTooLarge: a block has over 32 MiB.",
        "Cause: overwritten bytes; real frames are far smaller.",
        "Do: \"mkvsuite merge -o NEW FILE\" copies what is readable, with an index.",
    ]),
    ("TimeTooLarge", &[
        "TimeTooLarge: a time, a duration or a reference is 2^56 nanoseconds (over two",
        "  years) or more.",
        "Cause: overwritten bytes, or a writer with a wrong clock.",
        "Do: \"mkvsuite merge -o NEW FILE\" copies what is readable, with an index.",
    ]),
    ("NoTimestamp", &[
        "NoTimestamp: a block comes before the Timestamp of its Cluster, so it has no",
        "  time.",
        "Cause: a faulty writer.",
        "Do: \"mkvsuite merge -o NEW FILE\" copies what is readable, with an index.",
    ]),
    ("TooMany", &[
        "TooMany: more elements than this program holds; ID names the first that is too",
        "  many.",
        "Cause: limits: 4096 elements besides Clusters in the Segment, 1024 tracks,",
        "  1024 attachments, 64 references in a block, 65536 elements in Info, Tracks,",
        "  Chapters, Tags or Attachments, 8388608 in Cues, 32 levels.",
        "Do: FB: \"mkvsuite merge -o NEW FILE\". Otherwise \"mkvmerge -o NEW FILE\" (-M",
        "  drops attachments; -a, -d, -s select tracks).",
    ]),
    ("BadFrame", &[
        "BadFrame: extract left out a frame that isn't valid H.264, H.265, AAC or PGS",
        "  framing.",
        "Cause: a damaged frame: the lengths of its units (H.264, H.265) or segments",
        "  (PGS) don't add up, or it is over 8184 bytes (AAC).",
        "Do: the output has all other frames. \"extract FILE tracks --raw N:OUT\" writes",
        "  every frame as it is.",
    ]),
];

/// Names of the group 'warnings', each with its page.
#[rattlefmt::skip]
pub(crate) const WARNING_TOPICS: [(&str, &[&str]); 3] = [
    ("no", &[
        "no: FILE has no track, or no attachment, of this number.",
        "Cause: tracks count from 0 as info lists them, attachments from 1 as merge -J",
        "  lists them (its id).",
        "Do: correct the number and run again. extract made no file for N; in merge, a",
        "  lone -a N selects no audio track (-d and -s likewise).",
    ]),
    ("more", &[
        "more: FILE has N further damaged places or bad frames besides the 100 that are",
        "  listed.",
        "Cause: a badly damaged file.",
        "Do: see the page of the kind that is listed; the outputs have all that is",
        "  readable.",
    ]),
    ("segment", &[
        "segment: --segment-uid gave N UUIDs, but M outputs were written.",
        "Cause: the split made more or fewer parts than expected. With too few UUIDs",
        "  the last parts have none; with too many and --link the last part names the",
        "  first spare one as the next.",
        "Do: run again with M UUIDs.",
    ]),
];

/// Names of the group 'results', each with its page.
#[rattlefmt::skip]
pub(crate) const RESULT_TOPICS: [(&str, &[&str]); 6] = [
    ("wrote", &[
        "wrote: the output is complete and closed; N is its number of blocks, of all",
        "  tracks.",
        "Cause: printed only after all outputs of the run are complete.",
        "Do: \"sync OUT\" before you delete an input or unplug the disk. A file without a",
        "  wrote line may be incomplete.",
    ]),
    ("edited", &[
        "edited: all edits are in FILE, and are synced to disk.",
        "Cause: FILE.mkvedit remains with one byte (00).",
        "Do: nothing. FILE.mkvedit may be deleted.",
    ]),
    ("reindexed", &[
        "reindexed: FILE has a new index with N cue points.",
        "Cause: a point for each keyframe of video and subtitles. 0 cues: FILE has no",
        "  Cues.",
        "Do: nothing. FILE.mkvedit may be deleted.",
    ]),
    ("recovered", &[
        "recovered: the interrupted edit of FILE is now complete.",
        "Cause: FILE.mkvedit held it.",
        "Do: nothing. FILE.mkvedit may be deleted; \"mkvsuite info FILE\" shows the file.",
    ]),
    ("nothing", &[
        "nothing: no edit of FILE is unfinished.",
        "Cause: none was begun, it was finished, or FILE was moved without its",
        "  FILE.mkvedit.",
        "Do: if you moved FILE after an interrupted edit, put FILE.mkvedit next to it",
        "  and run recover again. To repair a damaged or cut film: \"mkvsuite merge -o",
        "  NEW FILE\".",
    ]),
    ("generated", &[
        "generated: the test files are written; PREFIX-m.mkv has B blocks, C Clusters",
        "  and Q cue points.",
        "Cause: the files depend on N and PREFIX only.",
        "Do: compare PREFIX-m.mkv with the same file by another build: the bytes must",
        "  be equal.",
    ]),
];

/// Names of the group 'general', each with its page.
#[rattlefmt::skip]
pub(crate) const GENERAL_TOPICS: [(&str, &[&str]); 7] = [
    ("error", &[
        "error: the run was refused: status 2. No output was written and no input was",
        "  changed.",
        "Cause: an argument (\"error: word N: ..\") or a file. At most an empty",
        "  FILE.mkvedit was made.",
        "Do: \"mkvsuite explain NAME\" with the word that follows, such as NoRoom.",
    ]),
    ("warning", &[
        "warning: the run is complete, but something is missing: status 1.",
        "Cause: a damaged place. merge and extract skip the rest of its Cluster. If the",
        "  Cluster has no known end within FILE, or the place is outside Clusters, they",
        "  skip the rest of FILE and, without --append-damaged, the blocks of all files",
        "  appended to it.",
        "Do: to keep an appended file, give --append-damaged, or first repair the",
        "  damaged one: \"mkvsuite merge -o NEW FILE\", then append to NEW.",
    ]),
    ("word", &[
        "word: word N of the command line is wrong.",
        "Cause: COMMAND is word 0. If a word is missing, N is the number of words.",
        "Do: \"mkvsuite explain NAME\" with the name that follows the colon, such as",
        "  BadValue.",
    ]),
    ("fault", &[
        "fault: a file operation failed: status 4. The cause isn't printed.",
        "Cause: \"fault: files\" is by info, merge, extract and generate; \"fault: disk\"",
        "  by propedit, reindex and recover.",
        "Do: see \"mkvsuite explain files\" and \"mkvsuite explain disk\".",
    ]),
    ("files", &[
        "files: a file couldn't be opened, read, made or written. Inputs are unchanged.",
        "Cause: no such folder; no permission; a full disk; a name over 255 bytes; or",
        "  INPUT.mkvedit can't be read. Or OUT is a folder, a device (/dev/null),",
        "  standard output, an input under another name (./film.mkv, a link), or a film",
        "  during an edit.",
        "Do: \"ls -ld FOLDER OUT INPUT INPUT.mkvedit\", \"df FOLDER\". Delete incomplete",
        "  outputs, remove the cause, run again.",
    ]),
    ("disk", &[
        "disk: an edit in place failed. FILE may be partly edited; FILE.mkvedit then",
        "  completes it.",
        "Cause: FILE is a link or standard output; no permission for FILE or its",
        "  folder; a full disk; a name over 247 bytes. Or another program locks or",
        "  replaced FILE, or FILE.mkvedit is another user's, a link, or has a second",
        "  name.",
        "Do: \"ls -ld FILE FILE.mkvedit FOLDER\", \"df FOLDER\", \"lslocks\". Remove the",
        "  cause, then \"mkvsuite recover FILE\". Name the file itself, not a link.",
    ]),
    ("status", &[
        "status: 0 done, 1 done with a warning, 2 refused, 3 out of memory, 4 a file",
        "  operation failed.",
        "Cause: without any line: 2 an argument isn't UTF-8; 3 out of memory; 4",
        "  standard output is closed or full. 153: the limit on file sizes (ulimit -f).",
        "Do: after 3 or 4, outputs may be incomplete; after an edit run recover.",
    ]),
];
