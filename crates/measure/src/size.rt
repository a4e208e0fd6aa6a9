// How many bytes each line takes, before any is written (playlist.rs, `MediaPlaylist::write_to` and what it calls). Spans say how long they are, so that the
// text is not needed; those of a text within its limit keep every sum small, and each function says a limit beside its size.
ghost use Rattle.std.specs.Prelude.{◌≡◌, cond, ◌+◌, ◌*◌, ◌≤◌, eqb, length};
ghost use Rattle.text.specs.Answers.{part_of};
ghost use Rattle.leaves.specs.Answers.{byte_range_of, ext_tag_of};
ghost use Rattle.attributes.specs.Answers.{opt_range_of};
ghost use Rattle.digits.specs.Digits.{number_text};
ghost use Rattle.tables.specs.Layout.{text_limit};
ghost use Rattle.assembly.specs.Answers.{version_of, head_type_of, head_seen, segment_map_of, clip_seen};
ghost use Rattle.playlist.specs.Lines.{version_line, range_bytes, line_if, lines_text};
ghost use Rattle.measure.specs.Inside.Below.{PartBelow, TypeBelow, MapBelow, TagBelow, ClipBelow};
ghost use Rattle.measure.specs.Inside.Sizes.{part_size, range_size, type_size, head_size, map_size, tag_size, clip_size};

use assembly::Clip;
use assembly::head::Head;
use attributes::ext_map::Map;
use digits::{length_size, number_size};
use leaves::basic_tags::{ExtTag, PlaylistType};
use leaves::util::ByteRange;
use text::Span;

// ---- what lines hold besides their values

const HEADER: usize = 8; // #EXTM3U, LF

const VERSION_LINE: usize = 16; // #EXT-X-VERSION:, LF

const INDEPENDENT_LINE: usize = 28; // #EXT-X-INDEPENDENT-SEGMENTS, LF

const TARGET_LINE: usize = 23; // #EXT-X-TARGETDURATION:, LF

const SEQUENCE_LINE: usize = 23; // #EXT-X-MEDIA-SEQUENCE:, LF

const DISCONTINUITIES_LINE: usize = 31; // #EXT-X-DISCONTINUITY-SEQUENCE:, LF

const TYPE_LINE: usize = 22; // #EXT-X-PLAYLIST-TYPE:, LF

const EVENT: usize = 5;

const VOD: usize = 3;

const I_FRAMES_LINE: usize = 21; // #EXT-X-I-FRAMES-ONLY, LF

const MAP_LINE: usize = 18; // #EXT-X-MAP:URI=, two quote marks, LF

const MAP_RANGE: usize = 13; // ,BYTERANGE=, two quote marks

const RANGE_LINE: usize = 18; // #EXT-X-BYTERANGE:, LF

pub(crate) const DISCONTINUITY_LINE: usize = 21; // #EXT-X-DISCONTINUITY, LF

const TAG_LINE: usize = 6; // #EXT-, LF

const COLON: usize = 1;

const EXTINF_LINE: usize = 10; // #EXTINF:, a comma, LF

const LF: usize = 1;

pub(crate) const END_LINE: usize = 15; // #EXT-X-ENDLIST, LF

// ---- what may be missing

// A line without a value.
pub(crate) fn mark_size(size: usize, there: bool) -> usize
    ensures size { result ≡ cond there size 0 }
    ensures most { result ≤ size }
{
    if there {
        return size;
    }
    0
}

// A sequence number, unless it is 0.
fn sequence_size(around: usize, n: u64) -> usize
    requires { around ≤ 40 }
    ensures size { result ≡ cond (eqb n 0) 0 (around + length (number_text n)) }
    ensures most { result ≤ 60 }
{
    if n == 0 {
        return 0;
    }
    around + number_size(n)
}

// A part of the text.
fn part_size(around: usize, part: Option<Span>) -> usize
    requires around_bound { around ≤ 40 }
    requires part_below { PartBelow text_limit (part_of part) }
    ensures size { result ≡ part_size around (part_of part) }
    ensures most { result ≤ text_limit + 40 }
{
    match part {
        None => 0,
        Some(s) => around + (s.end - s.start),
    }
}

fn range_value_size(r: ByteRange) -> usize
    ensures size { result ≡ length (range_bytes (byte_range_of r)) }
    ensures most { result ≤ 41 }
{
    let length = number_size(r.length);
    match r.offset {
        None => length,
        Some(o) => length + 1 + number_size(o),
    }
}

fn range_size(around: usize, r: Option<ByteRange>) -> usize
    requires { around ≤ 40 }
    ensures size { result ≡ range_size around (opt_range_of r) }
    ensures most { result ≤ 81 }
{
    match r {
        None => 0,
        Some(r) => around + range_value_size(r),
    }
}

// ---- a head

fn version_size(v: Option<u64>) -> usize
    ensures size { result ≡ length (lines_text (line_if version_line (version_of v))) }
    ensures most { result ≤ 61 }
{
    match v {
        None => 0,
        Some(n) => VERSION_LINE + number_size(n),
    }
}

fn type_size(t: Option<PlaylistType>) -> usize
    requires { TypeBelow text_limit (head_type_of t) }
    ensures size { result ≡ type_size (head_type_of t) }
    ensures most { result ≤ text_limit + 40 }
{
    match t {
        None => 0,
        Some(PlaylistType::Event) => TYPE_LINE + EVENT,
        Some(PlaylistType::Vod) => TYPE_LINE + VOD,
        Some(PlaylistType::Other(s)) => TYPE_LINE + (s.end - s.start),
    }
}

pub(crate) fn head_size(h: Head) -> usize
    requires { TypeBelow text_limit (head_type_of h.playlist_type) }
    ensures size { result ≡ head_size (head_seen h) }
    ensures most { result ≤ text_limit + 400 }
{
    let versions = version_size(h.version);
    let independent = mark_size(INDEPENDENT_LINE, h.independent_segments);
    let target = TARGET_LINE + number_size(h.target_duration);
    let sequence = sequence_size(SEQUENCE_LINE, h.media_sequence);
    let discontinuities = sequence_size(DISCONTINUITIES_LINE, h.discontinuity_sequence);
    let types = type_size(h.playlist_type);
    let frames = mark_size(I_FRAMES_LINE, h.i_frames_only);
    HEADER + versions + independent + target + sequence + discontinuities + types + frames
}

// ---- a clip

fn map_size(m: Option<Map>) -> usize
    requires { MapBelow text_limit (segment_map_of m) }
    ensures size { result ≡ map_size (segment_map_of m) }
    ensures most { result ≤ text_limit + 100 }
{
    match m {
        None => 0,
        Some(m) => {
            let behind = range_size(MAP_RANGE, m.byte_range);
            MAP_LINE + behind + (m.uri.end - m.uri.start)
        }
    }
}

// An unknown tag.
pub(crate) fn tag_size(t: ExtTag) -> usize
    requires { TagBelow text_limit (ext_tag_of t) }
    ensures size { result ≡ tag_size (ext_tag_of t) }
    ensures most { result ≤ 2 * text_limit + 100 }
{
    let behind = part_size(COLON, t.rest);
    TAG_LINE + (t.tag.end - t.tag.start) + behind
}

// A clip's lines but those of its unknown tags.
pub(crate) fn clip_size(c: Clip) -> usize
    requires { ClipBelow text_limit (clip_seen c) }
    ensures size { result ≡ clip_size (clip_seen c) }
    ensures most { result ≤ 3 * text_limit + 400 }
{
    let segment = c.segment;
    let maps = map_size(segment.map);
    let ranges = range_size(RANGE_LINE, segment.byte_range);
    let mark = mark_size(DISCONTINUITY_LINE, segment.discontinuity);
    let length = length_size(segment.length);
    let name = part_size(0, segment.title);
    maps + ranges + mark + (EXTINF_LINE + length + name) + (c.uri.end - c.uri.start + LF)
}
