// A head's lines (playlist.rs, `MediaPlaylist::write_to` up to the segments) at a place of a lent output: as many of their bytes as it still has room for.
// Each function answers the place that it reached. Lines that may be missing put nothing then.
#![tactic(auto)]

ghost use Rattle.std.specs.Prelude.{cond, [], ◌++◌, eqb};
ghost use Rattle.text.specs.Nom.{bytes};
ghost use Rattle.text.specs.Answers.{span_of};
ghost use Rattle.text.specs.Spans.{shown};
ghost use Rattle.digits.specs.Digits.{number_text};
ghost use Rattle.assembly.specs.Answers.{version_of, head_type_of, head_seen};
ghost use Rattle.put.specs.Put.{Puts};
ghost use Rattle.playlist.specs.Lines.{version_line, playlist_type_line, line_bytes, line_if, lines_text, type_line_of, rest_lines, head_lines};

use assembly::head::Head;
use leaves::basic_tags::PlaylistType;
use text::Span;

// What a line says before its number, the number, LF.
fn number_line(out: &mut [u8], at: usize, fixed: &[u8], n: u64) -> usize
    ensures { Puts out.old at (fixed.now ++ (number_text n ++ bytes "\n")) out.new result }
{
    let start = put::copy(out, at, fixed);
    let end = numerals::number(out, start, n);
    put::byte(out, end, b'\n')
}

// A sequence number, unless it is 0.
fn sequence_line(out: &mut [u8], at: usize, fixed: &[u8], n: u64) -> usize
    ensures { Puts out.old at (cond (eqb n 0) [] (fixed.now ++ (number_text n ++ bytes "\n"))) out.new result }
{
    if n == 0 {
        return at;
    }
    number_line(out, at, fixed, n)
}

fn version_lines(out: &mut [u8], at: usize, v: Option<u64>) -> usize
    ensures { Puts out.old at (lines_text (line_if version_line (version_of v))) out.new result }
{
    match v {
        None => at,
        Some(n) => number_line(out, at, b"#EXT-X-VERSION:", n),
    }
}

// A type that is another text.
fn other_type(out: &mut [u8], at: usize, text: &[u8], s: Span) -> usize
    ensures { Puts out.old at (line_bytes (playlist_type_line (shown text.now (span_of s)))) out.new result }
{
    let start = put::copy(out, at, b"#EXT-X-PLAYLIST-TYPE:");
    let end = put::shown(out, start, text, s);
    put::byte(out, end, b'\n')
}

fn type_lines(out: &mut [u8], at: usize, text: &[u8], t: Option<PlaylistType>) -> usize
    ensures { Puts out.old at (lines_text (line_if (type_line_of text.now) (head_type_of t))) out.new result }
{
    match t {
        None => at,
        Some(t) => match t {
            PlaylistType::Event => put::copy(out, at, b"#EXT-X-PLAYLIST-TYPE:EVENT\n"),
            PlaylistType::Vod => put::copy(out, at, b"#EXT-X-PLAYLIST-TYPE:VOD\n"),
            PlaylistType::Other(s) => other_type(out, at, text, s),
        },
    }
}

// The lines behind the target: the sequence numbers, the type, I-frames only. A place is named by what begins there.
fn head_rest(out: &mut [u8], at: usize, text: &[u8], h: Head) -> usize
    ensures { Puts out.old at (lines_text (rest_lines text.now (head_seen h))) out.new result }
{
    let typ = h.playlist_type;
    let second_at = sequence_line(out, at, b"#EXT-X-MEDIA-SEQUENCE:", h.media_sequence);
    let type_at = sequence_line(
        out,
        second_at,
        b"#EXT-X-DISCONTINUITY-SEQUENCE:",
        h.discontinuity_sequence,
    );
    let frames_at = type_lines(out, type_at, text, typ);
    put::copy_where(out, frames_at, b"#EXT-X-I-FRAMES-ONLY\n", h.i_frames_only)
}

pub fn head(out: &mut [u8], at: usize, text: &[u8], h: Head) -> usize
    ensures { Puts out.old at (lines_text (head_lines text.now (head_seen h))) out.new result }
{
    let version = h.version;
    let version_at = put::copy(out, at, b"#EXTM3U\n");
    let mark_at = version_lines(out, version_at, version);
    let target_at = put::copy_where(
        out,
        mark_at,
        b"#EXT-X-INDEPENDENT-SEGMENTS\n",
        h.independent_segments,
    );
    let rest_at = number_line(out, target_at, b"#EXT-X-TARGETDURATION:", h.target_duration);
    head_rest(out, rest_at, text, h)
}
