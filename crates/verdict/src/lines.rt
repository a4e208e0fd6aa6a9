// Line by line, until a tag tells.
ghost use Rattle.std.specs.Prelude.{◌≡◌, [], ◌∷◌};
ghost use Rattle.text.specs.Nom.{opt, alt, map};
ghost use Rattle.text.specs.Util.{consume_line};
ghost use Rattle.verdict.specs.Verdict as rule;
ghost use Rattle.verdict.specs.Verdict.{fixed, media_name};
ghost use Rattle.verdict.specs.Inside.Letters.{HasAt, or_row, found, lettered};
ghost use Rattle.verdict.specs.Answers.{kind_res, opt_kind, says_of, line_res, verdict_seen};

use crate::quiet;
use leaves::util;
use text::{IResult, Why};

// A name, and the kind of its tag (master: true).
fn named(text: &[u8], at: usize, name: &[u8], kind: bool) -> IResult<bool>
    ensures { kind_res result ≡ found (fixed name.now kind ∷ []) text.now at }
{
    if scan::starts_with(text, at, name) {
        Ok((kind, at + name.len()))
    } else {
        Err(Why::OtherText)
    }
}

// This name, where none before it is there.
fn or_named(found: IResult<bool>, text: &[u8], at: usize, name: &[u8], kind: bool) -> IResult<bool>
    ensures { kind_res result ≡ or_row (kind_res found) (fixed name.now kind) text.now at }
{
    found.or_else(|_| named(text, at, name, kind))
}

// The first of two names that is there.
fn either(
    text: &[u8],
    at: usize,
    first: &[u8],
    kind: bool,
    second: &[u8],
    other: bool,
) -> IResult<bool>
    ensures { kind_res result ≡ found (fixed first.now kind ∷ fixed second.now other ∷ []) text.now at }
{
    or_named(named(text, at, first, kind), text, at, second, other)
}

// The first of three names of one kind.
fn one_of_three(
    text: &[u8],
    at: usize,
    first: &[u8],
    second: &[u8],
    third: &[u8],
    kind: bool,
) -> IResult<bool>
    ensures { kind_res result ≡ found (fixed first.now kind ∷ fixed second.now kind ∷ fixed third.now kind ∷ []) text.now at }
{
    let found = either(text, at, first, kind, second, kind);
    or_named(found, text, at, third, kind)
}

// The run after `#EXT-X-MEDIA` goes to the next `-`, across lines.
fn group_tag(text: &[u8], at: usize) -> IResult<bool>
    ensures { kind_res result ≡ found (media_name ∷ []) text.now at }
{
    let name = b"#EXT-X-MEDIA";
    if scan::starts_with(text, at, name) {
        let after = at + name.len();
        let dash = blocks::find(text, after, b"-");
        if after < dash {
            return Ok((true, dash));
        }
        return Err(Why::MissingByte);
    }
    Err(Why::OtherText)
}

fn stream_or_session_tag(text: &[u8], at: usize) -> IResult<bool>
    ensures { kind_res result ≡ lettered "S" text.now at }
{
    one_of_three(
        text,
        at,
        b"#EXT-X-STREAM-INF",
        b"#EXT-X-SESSION-KEY",
        b"#EXT-X-SESSION-DATA",
        true,
    )
}

fn frames_tag(text: &[u8], at: usize) -> IResult<bool>
    ensures { kind_res result ≡ lettered "I" text.now at }
{
    either(
        text,
        at,
        b"#EXT-X-I-FRAME-STREAM-INF",
        true,
        b"#EXT-X-I-FRAMES-ONLY",
        false,
    )
}

fn media_or_map_tag(text: &[u8], at: usize) -> IResult<bool>
    ensures { kind_res result ≡ lettered "M" text.now at }
{
    let found = group_tag(text, at);
    let found = or_named(found, text, at, b"#EXT-X-MEDIA-SEQUENCE", false);
    or_named(found, text, at, b"#EXT-X-MAP", false)
}

fn break_or_dates_tag(text: &[u8], at: usize) -> IResult<bool>
    ensures { kind_res result ≡ lettered "D" text.now at }
{
    one_of_three(
        text,
        at,
        b"#EXT-X-DISCONTINUITY-SEQUENCE",
        b"#EXT-X-DISCONTINUITY",
        b"#EXT-X-DATERANGE",
        false,
    )
}

fn type_or_time_tag(text: &[u8], at: usize) -> IResult<bool>
    ensures { kind_res result ≡ lettered "P" text.now at }
{
    either(
        text,
        at,
        b"#EXT-X-PLAYLIST-TYPE",
        false,
        b"#EXT-X-PROGRAM-DATE-TIME",
        false,
    )
}

// The names that begin with `#EXT-X-`: only those of the letter behind it are tried.
fn lettered_tag(text: &[u8], at: usize) -> IResult<bool>
    requires { HasAt 4 "-" text.now at }
    ensures { opt_kind at result ≡ opt (alt rule.master_kind rule.media_kind) text.now at }
{
    match scan::byte_at(text, at, 7) {
        b'S' => stream_or_session_tag(text, at),
        b'I' => frames_tag(text, at),
        b'M' => media_or_map_tag(text, at),
        b'D' => break_or_dates_tag(text, at),
        b'P' => type_or_time_tag(text, at),
        b'T' => named(text, at, b"#EXT-X-TARGETDURATION", false),
        b'E' => named(text, at, b"#EXT-X-ENDLIST", false),
        b'B' => named(text, at, b"#EXT-X-BYTERANGE", false),
        b'K' => named(text, at, b"#EXT-X-KEY", false),
        _ => Err(Why::OtherText),
    }
}

// At place 4 `#EXTINF` has an `I` and the others have a `-`; most lines are no tags, and have another byte there.
fn tag_kind(text: &[u8], at: usize) -> IResult<bool>
    ensures { opt_kind at result ≡ opt (alt rule.master_kind rule.media_kind) text.now at }
{
    match scan::byte_at(text, at, 4) {
        b'I' => named(text, at, b"#EXTINF", false),
        b'-' => lettered_tag(text, at),
        _ => Err(Why::OtherText),
    }
}

// What a line says is a kind and the place of its `#`, or nothing. It counts only where the rest of the line can be taken.
fn with_rest(text: &[u8], at: usize, says: Option<(bool, usize)>) -> IResult<Option<(bool, usize)>>
    ensures { line_res result ≡ map (λ _. says_of says) consume_line text.now at }
{
    let (_, after) = util::consume_line(text, at)?;
    Ok((says, after))
}

// Only CRs and LFs are skipped before a tag: a line that begins with a blank says nothing.
pub fn is_master_playlist_tag_line(text: &[u8], at: usize) -> IResult<Option<(bool, usize)>>
    ensures { line_res result ≡ rule.is_master_playlist_tag_line text.now at }
{
    if text.len() <= at {
        return Err(Why::MissingByte);
    }
    let hash = blocks::while_in(text, at, b"\r\n");
    match tag_kind(text, hash) {
        Ok((kind, after)) => with_rest(text, after, Some((kind, hash))),
        Err(_) => with_rest(text, hash, None),
    }
}

// Media is an answer, and no lack of one: so this is no `Option` of the place that tells master.
#[derive(Clone, Copy)]
pub enum Verdict {
    Master(usize),
    Media,
}

// The first line that tells decides; a line that can't be taken ends the scan as media.
pub fn verdict_from(text: &[u8], at: usize) -> Verdict
    ensures { verdict_seen result ≡ rule.verdict_from text.now at }
{
    let mut at = at;
    loop {
        let line = quiet::quiet_end(text, at);
        let Ok((says, after)) = is_master_playlist_tag_line(text, line) else {
            return Verdict::Media;
        };
        match says {
            None => at = after,
            Some((is_master, hash)) => {
                if is_master {
                    return Verdict::Master(hash);
                }
                return Verdict::Media;
            }
        }
    }
}
