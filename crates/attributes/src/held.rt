// What a list has under each of some names, in words that the caller lends: three to a name, in the order of the names.
ghost use Rattle.std.specs.Prelude.{◌≡◌, [], ◌∷◌, ◌<◌, length, replicate};
ghost use Rattle.std.proofs.Math.Option.{some};
ghost use Rattle.attributes.specs.Held as rule;
ghost use Rattle.attributes.specs.Inside.Insert.{stored};
ghost use Rattle.attributes.specs.Answers.{value_of, attr_of};

use crate::pair::QuotedOrUnquoted;
use text::Span;

// The words of an attribute. `specs/Held.antt` has these numbers for the rules.
pub const ATTR_WORDS: usize = 3;

const KIND: usize = 0;

const START: usize = 1;

const END: usize = 2;

// Its kind is one of these where it is present, and 0 where it is absent.
pub const UNQUOTED: u64 = 1;

pub const QUOTED: u64 = 2;

// Every attribute is absent.
pub fn clear(held: &mut [u64])
    ensures { held.new ≡ replicate (length held.old) 0 }
{
    held.fill(0);
}

fn put_words(held: &mut [u64], number: usize, kind: u64, value: Span)
    ensures { held.new ≡ stored held.old number (kind ∷ value.start ∷ value.end ∷ []) }
{
    if number < held.len() / ATTR_WORDS {
        let first = number * ATTR_WORDS;
        held[first] = kind;
        held[first + START] = value.start as u64;
        held[first + END] = value.end as u64;
    }
}

// Where there are no words for this number, nothing is held.
pub fn put(held: &mut [u64], number: usize, value: QuotedOrUnquoted)
    ensures { held.new ≡ stored held.old number (rule.words_of (some (value_of value))) }
{
    match value {
        QuotedOrUnquoted::Unquoted(s) => put_words(held, number, UNQUOTED, s),
        QuotedOrUnquoted::Quoted(s) => put_words(held, number, QUOTED, s),
    }
}

fn word(held: &[u64], number: usize, place: usize) -> u64
    requires { place < rule.attr_words }
    ensures { result ≡ rule.attr_word held.now number place }
{
    if number < held.len() / ATTR_WORDS {
        return held[number * ATTR_WORDS + place];
    }
    0
}

// The attribute of the name of this number, absent where there are no words for it.
pub fn attr_at(held: &[u64], number: usize) -> Option<QuotedOrUnquoted>
    ensures { attr_of result ≡ rule.attr_at held.now number }
{
    let value = Span {
        start: word(held, number, START) as usize,
        end: word(held, number, END) as usize,
    };
    let kind = word(held, number, KIND);
    if kind == UNQUOTED {
        return Some(QuotedOrUnquoted::Unquoted(value));
    }
    if kind == QUOTED {
        return Some(QuotedOrUnquoted::Quoted(value));
    }
    None
}
