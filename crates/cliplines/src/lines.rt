// A line of each kind that a clip can have, at a place of the output. What may be missing is asked for apart from its line: a line's fixed bytes are laid out as its
// function begins.
ghost use Rattle.text.specs.Answers.{span_of, part_of};
ghost use Rattle.text.specs.Spans.{shown, shown_part};
ghost use Rattle.leaves.specs.Answers.{byte_range_of, ext_tag_of};
ghost use Rattle.attributes.specs.Answers.{opt_range_of, map_of};
ghost use Rattle.assembly.specs.Answers.{segment_map_of};
ghost use Rattle.put.specs.Put.{Puts};
ghost use Rattle.playlist.specs.Lines.{byte_range_line, extinf_line, uri_line, range_bytes, map_range_bytes, rest_bytes, line_bytes, line_if, lines_text, map_line_of, tag_line_of, title_text};

use attributes::ext_map::Map;
use leaves::basic_tags::ExtTag;
use leaves::util::ByteRange;
use text::Span;

// ---- byte ranges and the map

fn range_value(out: &mut [u8], at: usize, r: ByteRange) -> usize
    ensures { Puts out.old at (range_bytes (byte_range_of r)) out.new result }
{
    let sign = numerals::number(out, at, r.length);
    match r.offset {
        None => sign,
        Some(o) => {
            let value = put::byte(out, sign, b'@');
            numerals::number(out, value, o)
        }
    }
}

pub(crate) fn range_line(out: &mut [u8], at: usize, r: ByteRange) -> usize
    ensures { Puts out.old at (line_bytes (byte_range_line (byte_range_of r))) out.new result }
{
    let value = put::copy(out, at, b"#EXT-X-BYTERANGE:");
    let end = range_value(out, value, r);
    put::byte(out, end, b'\n')
}

pub(crate) fn range_lines(out: &mut [u8], at: usize, r: Option<ByteRange>) -> usize
    ensures { Puts out.old at (lines_text (line_if byte_range_line (opt_range_of r))) out.new result }
{
    match r {
        None => at,
        Some(r) => range_line(out, at, r),
    }
}

fn map_range(out: &mut [u8], at: usize, r: Option<ByteRange>) -> usize
    ensures { Puts out.old at (map_range_bytes (opt_range_of r)) out.new result }
{
    match r {
        None => at,
        Some(r) => {
            let value = put::copy(out, at, b",BYTERANGE=\"");
            let end = range_value(out, value, r);
            put::byte(out, end, b'"')
        }
    }
}

fn map_line(out: &mut [u8], at: usize, text: &[u8], m: Map) -> usize
    ensures { Puts out.old at (line_bytes (map_line_of text.now (map_of m))) out.new result }
{
    let start = put::copy(out, at, b"#EXT-X-MAP:URI=\"");
    let quote = put::shown(out, start, text, m.uri);
    let comma = put::byte(out, quote, b'"');
    let end = map_range(out, comma, m.byte_range);
    put::byte(out, end, b'\n')
}

pub(crate) fn map_lines(out: &mut [u8], at: usize, text: &[u8], m: Option<Map>) -> usize
    ensures { Puts out.old at (lines_text (line_if (map_line_of text.now) (segment_map_of m))) out.new result }
{
    match m {
        None => at,
        Some(m) => map_line(out, at, text, m),
    }
}

// ---- an unknown tag

fn tag_rest(out: &mut [u8], at: usize, text: &[u8], rest: Option<Span>) -> usize
    ensures { Puts out.old at (rest_bytes (shown_part text.now (part_of rest))) out.new result }
{
    match rest {
        None => at,
        Some(s) => {
            let start = put::byte(out, at, b':');
            put::shown(out, start, text, s)
        }
    }
}

pub(crate) fn tag_line(out: &mut [u8], at: usize, text: &[u8], t: ExtTag) -> usize
    ensures { Puts out.old at (line_bytes (tag_line_of text.now (ext_tag_of t))) out.new result }
{
    let start = put::copy(out, at, b"#EXT-");
    let colon = put::shown(out, start, text, t.tag);
    let end = tag_rest(out, colon, text, t.rest);
    put::byte(out, end, b'\n')
}

// ---- length, title and URI

fn title(out: &mut [u8], at: usize, text: &[u8], title: Option<Span>) -> usize
    ensures { Puts out.old at (title_text text.now (part_of title)) out.new result }
{
    match title {
        None => at,
        Some(s) => put::shown(out, at, text, s),
    }
}

pub(crate) fn extinf_line(
    out: &mut [u8],
    at: usize,
    text: &[u8],
    ns: u64,
    name: Option<Span>,
) -> usize
    ensures { Puts out.old at (line_bytes (extinf_line ns (title_text text.now (part_of name)))) out.new result }
{
    let start = put::copy(out, at, b"#EXTINF:");
    let comma = numerals::length(out, start, ns);
    let shown = put::byte(out, comma, b',');
    let end = title(out, shown, text, name);
    put::byte(out, end, b'\n')
}

// The same of a title that is there as a span in any case: where there is none, the span shows nothing.
pub(crate) fn extinf_shown(out: &mut [u8], at: usize, text: &[u8], ns: u64, name: Span) -> usize
    ensures { Puts out.old at (line_bytes (extinf_line ns (shown text.now (span_of name)))) out.new result }
{
    let start = put::copy(out, at, b"#EXTINF:");
    let comma = numerals::length(out, start, ns);
    let shown = put::byte(out, comma, b',');
    let end = put::shown(out, shown, text, name);
    put::byte(out, end, b'\n')
}

pub(crate) fn uri_line(out: &mut [u8], at: usize, text: &[u8], s: Span) -> usize
    ensures { Puts out.old at (line_bytes (uri_line (shown text.now (span_of s)))) out.new result }
{
    let end = put::shown(out, at, text, s);
    put::byte(out, end, b'\n')
}
