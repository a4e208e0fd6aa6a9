// Writes the cue file of a media playlist: the list on standard input, the file on standard output. A refusal is one line on standard error, and nothing on standard output.
// It knows no rule of a playlist and no byte of a cue file: the reader fills the clip table, the writer makes the file of it.
#![tactic(auto)]

ghost use Rattle.std.specs.Prelude.{◌≡◌, length, take, IfOk, IfSome, OnOk};
ghost use Rattle.output.specs.Held.{behind, held};
ghost use Rattle.output.specs.Puts.{Puts, Sends};
ghost use Rattle.printing.specs.Said.{SaidAs, SaysAs, SendsAs, Tells};
ghost use Rattle.cue.specs.File as rule;
ghost use Rattle.cue.specs.Inside.Words as inside;

use input::watched::Watched;
use input::whole;
use input::whole::Cut;
use printing::Failed;
use printing::streams::Streams;
use std::io::{Read, Write};
use tables::{Refusal, layout};

// The longest text that the program holds.
const TEXT_SIZE: usize = 65_536;

// One byte more, so that a longer text is seen to be longer. What comes after that byte is not read.
const TEXT_ROOM: usize = TEXT_SIZE + 1;

const CLIPS: usize = 8_192;

const TAGS: usize = 8_192;

const CLIP_ROOM: usize = CLIPS * layout::CLIP_WORDS;

const TAG_ROOM: usize = TAGS * layout::TAG_WORDS;

// So many records, URIs as long as a text, and the trailer.
const FILE_ROOM: usize = CLIPS * cue_file::CLIP_WIDTH + TEXT_SIZE + cue_file::TRAILER_WIDTH;

// What the reader and the writer fill.
#[derive(Drop)]
struct Memory {
    clips: [u64; CLIP_ROOM],
    tags: [u64; TAG_ROOM],
    file: [u8; FILE_ROOM],
}

// The file is whole in its own memory before a byte of it is put: a refusal leaves nothing on standard output.
fn make_file<O: Write, E: Write>(
    say: &mut Streams<O, E>,
    text: &[u8],
    words: &[u64],
    clips: usize,
    file: &mut [u8],
)
    ensures says { SaidAs say.old say.new (inside.words_file text.now words.now clips file.old) }
    ensures sent { SendsAs say.old say.new O.contents E.contents (inside.words_file text.now words.now clips file.old) }
{
    match cue_writer::write(text, words, clips, file) {
        Err(r) => say.refuse(r.number(), 0),
        Ok(count) => say.give(&file[..count]),
    }
}

// 1 by the program's own size, then the reader's refusals, then the writer's.
fn read_list<O: Write, E: Write>(say: &mut Streams<O, E>, text: &[u8], memory: &mut Memory)
    ensures says { SaidAs say.old say.new (rule.cue_file text.now) }
    ensures sent { SendsAs say.old say.new O.contents E.contents (rule.cue_file text.now) }
{
    if TEXT_SIZE < text.len() {
        return say.refuse(Refusal::TextTooLong.number(), 0);
    }
    match media::parse_media_playlist(text, &mut memory.clips, &mut memory.tags) {
        Err(r) => say.refuse(r.refusal.number(), r.place),
        Ok(read) => make_file(say, text, &memory.clips, read.clips, &mut memory.file),
    }
}

// Answers how many bytes came, the first of the text. A text that could not be read has no file. What comes is the reader's to say.
fn run<I: Read, O: Write, E: Write>(
    stdin: &mut I,
    say: &mut Streams<O, E>,
    text: &mut [u8],
    memory: &mut Memory,
) -> Result<usize, Cut>
    ensures came { IfOk result (λ count. IfSome (I.remaining stdin.old) (λ bytes. take count text.new ≡ take (length text.new) bytes)) }
    ensures says { SaysAs say.old say.new result (λ count. rule.cue_file (take count text.new)) }
    ensures sent { IfOk result (λ count. SendsAs say.old say.new O.contents E.contents (rule.cue_file (take count text.new))) }
{
    let count = whole::read_all(stdin, text)?;
    read_list(say, &text[..count], memory);
    Ok(count)
}

// The whole program. Where all was read and written, the file of the list that came is written, or why there is none.
fn write_all<I: Read, O: Write, E: Write>(
    stdin: &mut I,
    say: &mut Streams<O, E>,
    text: &mut [u8; TEXT_ROOM],
    memory: &mut Memory,
) -> Result<(), Failed>
    ensures { OnOk result (IfSome (I.remaining stdin.old) (λ bytes.
        Tells (held O.contents say.old.out) (O.contents (behind say.new.out)) (held E.contents say.old.err) (E.contents (behind say.new.err)) (rule.cue_file bytes))) }
{
    run(stdin, say, text, memory).map_err(|cut| Failed::Read(cut.error))?;
    say.flush().map_err(Failed::Write)?;
    Ok(())
}

fn main(rt: HostRuntime) {
    let mut stdin = Watched::new(rt.stdin());
    let mut say = Streams::new(rt.stdout(), rt.stderr());
    let mut text = [0u8; TEXT_ROOM];
    let mut memory = Memory {
        clips: [0; CLIP_ROOM],
        tags: [0; TAG_ROOM],
        file: [0; FILE_ROOM],
    };
    match write_all(&mut stdin, &mut say, &mut text, &mut memory) {
        Ok(()) => {}
        Err(Failed::Read(e)) => printing::tell(rt, "cue: read", stdin.error.unwrap_or(e)),
        Err(Failed::Write(e)) => printing::tell(rt, "cue: write", e),
    }
}
