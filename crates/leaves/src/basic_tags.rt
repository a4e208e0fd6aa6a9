// parser.rs, "Basic tags", and the playlist's type.
ghost use Rattle.std.specs.Prelude.{◌≡◌};
ghost use Rattle.text.specs.BasicTags as rule;
ghost use Rattle.text.specs.Answers.{place_res, part_res, span_of};
ghost use Rattle.leaves.specs.Answers.{ext_tag_res, type_of, playlist_type_res};

use text::{IResult, Span, Why};

// The text's first seven bytes: `#EXTM3U`. What follows them is not looked at.
pub fn m3u_tag(text: &[u8], at: usize) -> IResult<()>
    ensures { place_res result ≡ rule.m3u_tag text.now at }
{
    if scan::starts_with(text, at, b"#EXTM3U") {
        Ok(((), at + 7))
    } else {
        Err(Why::OtherText)
    }
}

// struct ExtTag { tag: String, rest: Option<String> }
#[derive(Clone, Copy)]
pub struct ExtTag {
    pub tag: Span,
    pub rest: Option<Span>,
}

// An unknown tag: its name, and its rest if that is not empty.
pub fn ext_tag(text: &[u8], at: usize) -> IResult<ExtTag>
    ensures { ext_tag_res result ≡ rule.ext_tag text.now at }
{
    if !scan::starts_with(text, at, b"#EXT-") {
        return Err(Why::OtherText);
    }
    let name = at + 5;
    let name_end = blocks::until(text, name, b"\r\n:");
    if name_end <= name {
        return Err(Why::NameEmpty);
    }
    let rest = scan::after_tag(text, name_end, b":");
    let rest_end = blocks::line_end(text, rest);
    if text.len() <= rest_end {
        return Err(Why::MissingByte);
    }
    let tag = Span {
        start: name,
        end: name_end,
    };
    let rest = scan::part(rest, rest_end);
    Ok((ExtTag { tag, rest }, rest_end + 1))
}

// A comment: what follows `#` on the line, perhaps nothing.
pub fn comment_tag(text: &[u8], at: usize) -> IResult<Option<Span>>
    ensures { part_res result ≡ rule.comment_tag text.now at }
{
    if !scan::starts_with(text, at, b"#") {
        return Err(Why::OtherText);
    }
    let start = at + 1;
    let end = blocks::line_end(text, start);
    if text.len() <= end {
        return Err(Why::MissingByte);
    }
    Ok((scan::part(start, end), end + 1))
}

// enum MediaPlaylistType { Event, Vod, Other(String) }
#[derive(Clone, Copy)]
pub enum PlaylistType {
    Event,
    Vod,
    Other(Span),
}

fn from_str(text: &[u8], typ: Span) -> PlaylistType
    ensures { type_of result ≡ rule.from_str text.now (span_of typ) }
{
    if scan::spells(text, typ, b"EVENT") {
        return PlaylistType::Event;
    }
    if scan::spells(text, typ, b"VOD") {
        return PlaylistType::Vod;
    }
    PlaylistType::Other(typ)
}

// The type is the whole line, blanks included.
pub fn playlist_type(text: &[u8], at: usize) -> IResult<PlaylistType>
    ensures { playlist_type_res result ≡ rule.playlist_type text.now at }
{
    let end = blocks::line_end(text, at);
    if end <= at {
        return Err(Why::TypeEmpty);
    }
    if text.len() <= end {
        return Err(Why::MissingByte);
    }
    Ok((from_str(text, Span { start: at, end }), end + 1))
}
