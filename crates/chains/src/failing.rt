// Names that make no pair. Where one was found, no name that begins within it makes one: it has the same `=`, and no value behind it.
ghost use Rattle.std.specs.Prelude.{◌≡◌, true};
ghost use Rattle.text.specs.Nom as nom;
ghost use Rattle.text.specs.Answers.{span_of};
ghost use Rattle.chains.specs.Inside.Kept as rule;
ghost use Rattle.chains.specs.Inside.Answers.{failing_seen, PairOk, NotesAs, TriedPair};

use crate::kept::Failing;
use attributes::pair;
use attributes::pair::Pair;
use text::{IResult, Span, Why};

// A pair or none, and the names that are known then to make none.
#[derive(Clone, Copy)]
pub struct Tried {
    pub pair: IResult<Pair>,
    pub fails: Failing,
}

// Whether a name can begin here: there is a byte, and it ends no line.
pub(crate) fn begins_name(text: &[u8], at: usize) -> bool
    ensures { result ≡ rule.begins_name text.now at }
{
    if text.len() <= at {
        return false;
    }
    !scan::is_one_of(b"\r\n", text[at])
}

fn is_silent(names: Span, at: usize) -> bool
    ensures { result ≡ rule.is_silent (span_of names) at }
{
    if names.start == 0 {
        return false;
    }
    (names.start - 1 <= at) & (at <= names.end)
}

// The name that begins here makes no pair: it runs to its `=`, or to the text's end where there is none.
fn noted(text: &[u8], f: Failing, at: usize) -> Failing
    ensures { NotesAs text.now at (failing_seen f) (failing_seen result) }
{
    if text.len() <= at {
        return f;
    }
    let equals = blocks::until(text, at, b"=");
    let found = Span {
        start: at + 1,
        end: equals,
    };
    if equals < text.len() {
        return Failing { dead: found, ..f };
    }
    Failing { none: found, ..f }
}

// The pair whose name begins here. A name that is known to make none is not looked at again.
pub(crate) fn pair_at(text: &[u8], at: usize, f: Failing) -> Tried
    ensures pair_ok { PairOk text.now at result.pair }
    ensures tried_pair { rule.TrueFailing text.now (failing_seen f) → TriedPair text.now at result }
{
    if is_silent(f.dead, at) || is_silent(f.none, at) {
        return Tried {
            pair: Err(Why::OtherText),
            fails: f,
        };
    }
    let found = pair::key_value_pair(text, at);
    if found.is_err() && begins_name(text, at) {
        let fails = noted(text, f, at);
        return Tried { pair: found, fails };
    }
    Tried {
        pair: found,
        fails: f,
    }
}
