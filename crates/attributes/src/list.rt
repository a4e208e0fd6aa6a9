// Pair after pair, until something stands there that is none; and the last of each name.
ghost use Rattle.std.specs.Prelude.{◌≡◌, ◌+◌, ◌≤◌, length, take, drop};
ghost use Rattle.text.specs.Answers.{span_of};
ghost use Rattle.text.specs.Many.{many0, items};
ghost use Rattle.attributes.specs.Pairs as rule;
ghost use Rattle.attributes.specs.Held.{LastOfEach};
ghost use Rattle.attributes.specs.Inside.Insert.{inserted_from};
ghost use Rattle.attributes.specs.Answers.{pair_of, pair_res};

use crate::pair::Pair;
use crate::{held, pair};
use text::{IResult, Span};

// The pair here, after spaces and tabs. Where there is none the list has ended.
pub fn next_pair(text: &[u8], at: usize) -> IResult<Pair>
    ensures { pair_res result ≡ rule.next_pair text.now at }
{
    pair::key_value_pair(text, blocks::while_in(text, at, b" \t"))
}

// Where the name ends that begins here and has so many bytes: at the names' end, where fewer are left.
fn name_end(names: &[u8], start: usize, size: usize) -> usize
    requires { start ≤ length names.now }
    ensures { result ≡ start + length (take size (drop start names.now)) }
{
    if names.len() - start < size {
        return names.len();
    }
    start + size
}

// One pair more: under each name that is the pair's, its value takes the place of what is held there.
pub fn insert(text: &[u8], p: Pair, names: &[u8], sizes: &[usize], held: &mut [u64])
    ensures { held.new ≡ inserted_from text.now (pair_of p) 0 (rule.words names.now sizes.now) held.old }
{
    let name = p.name;
    let value = p.value;
    let mut start = 0;
    for (n, &size) in sizes.iter().enumerate() {
        let end = name_end(names, start, size);
        if scan::spells(text, name, &names[start..end]) {
            held::put(held, n, value);
        }
        start = end;
    }
}

// Where the list ends: after its last pair and that one's comma. What it has under each name is then held, three words to a name (`held::attr_at`).
// The names stand one after the other in one text, with their sizes beside: so nothing is looked for in them, and where both are constants the compiler
// has each name as it is. All names in one walk, since a list may run to the text's end.
pub fn last_of_each(
    text: &[u8],
    at: usize,
    names: &[u8],
    sizes: &[usize],
    held: &mut [u64],
) -> usize
    ensures { LastOfEach text.now at names.now sizes.now held.old held.new result }
{
    held::clear(held);
    let mut from = at;
    while let Ok((p, after)) = next_pair(text, from) {
        insert(text, p, names, sizes, held);
        from = after;
    }
    from
}

fn is_named(text: &[u8], part: Span, names: &[u8], sizes: &[usize]) -> bool
    ensures { result ≡ rule.named text.now (span_of part) (rule.words names.now sizes.now) }
{
    let mut start = 0;
    for &size in sizes {
        let end = name_end(names, start, size);
        if scan::spells(text, part, &names[start..end]) {
            return true;
        }
        start = end;
    }
    false
}

// Whether the list has a name besides these.
pub fn has_besides(text: &[u8], at: usize, names: &[u8], sizes: &[usize]) -> bool
    ensures { result ≡ rule.besides text.now (rule.words names.now sizes.now) (items (many0 rule.next_pair text.now at)) }
{
    let mut from = at;
    while let Ok((p, after)) = next_pair(text, from) {
        if !is_named(text, p.name, names, sizes) {
            return true;
        }
        from = after;
    }
    false
}
