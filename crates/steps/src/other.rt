// What is no known tag: unknown tags, comments, URIs.
ghost use Rattle.std.specs.Prelude.{◌≡◌};
ghost use Rattle.tags.specs.Tags as rule;
ghost use Rattle.tags.specs.Answers.{tag_res};

use leaves::{basic_tags, util};
use tags::Tag;
use text::IResult;

pub fn uri_line(text: &[u8], at: usize) -> IResult<Tag>
    ensures { tag_res result ≡ rule.uri_line text.now at }
{
    let (line, after) = util::consume_line(text, at)?;
    Ok((Tag::Uri(line), after))
}

pub fn other_tag(text: &[u8], at: usize) -> IResult<Tag>
    ensures { tag_res result ≡ rule.other_tag text.now at }
{
    if let Ok((t, after)) = basic_tags::ext_tag(text, at) {
        return Ok((Tag::Unknown(t), after));
    }
    if let Ok((t, after)) = basic_tags::comment_tag(text, at) {
        return Ok((Tag::Comment(t), after));
    }
    uri_line(text, at)
}
