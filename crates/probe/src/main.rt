// Makes the library's calls (crate `ledgerfern`) on binary records from standard input, and prints a line for each: the whole answer and the lent memory.
// It decodes, calls and prints, and knows no rule of a playlist. A record is its op, a byte, and then the call's arguments:
//   1 verdict             text
//   2 reader              text, clip words, tag words
//   3 writer              text, the head's eleven numbers, number of clips, clip words, number of tags, tag words, output
//   4 total               number of clips, clip words
//   5 start tick          number of clips, clip words, rate, turn, clip
//   6 window              text, number of clips, clip words, clip
//   7 ticks of a clip     as 5
//   8 clip at a tick      number of clips, clip words, rate, tick
//   9 cue writer          text, number of clips, clip words, output
//  10 cue reader          file, clip
//  13 since and left      as 8
//  14 all starts          number of clips, clip words, rate, turn, words of the table of starts
//  15 room for a text     text
//  28 start in ns         number of clips, clip words, clip
//  29 all windows         text, number of clips, clip words, words of the table of windows
// A number has eight bytes, the lowest first; a text or words are their count, a number, and then so many bytes or numbers.
#![tactic(auto)]

use input::{Input, Stop};
use lines::Lines;
use op::{Op, UnknownOp};
use std::io::Stdin;

mod calls; // for each op: its arguments, the call, its line
mod lines; // what is printed
mod op; // what a record asks for

// The most that a record's text and words may have.
const TEXT_ROOM: usize = 140_000;

const WORD_ROOM: usize = 70_000;

// A run: its input, its output, and the memory that its calls are lent.
#[derive(Drop)]
pub struct Probe {
    input: Input<Stdin>,
    lines: Lines,
    text: [u8; TEXT_ROOM],
    clips: [u64; WORD_ROOM],
    tags: [u64; WORD_ROOM],
    out: [u8; TEXT_ROOM],
}

// Why no record follows.
#[derive(Clone, Copy)]
enum Last {
    End,
    UnknownOp,
    Stopped(Stop),
}

impl From<Stop> for Last {
    fn from(stop: Stop) -> Last {
        Last::Stopped(stop)
    }
}

impl From<UnknownOp> for Last {
    fn from(_op: UnknownOp) -> Last {
        Last::UnknownOp
    }
}

impl Last {
    // The last line of a run.
    fn line(self) -> &'static [u8] {
        match self {
            Last::End => b"end\n",
            Last::UnknownOp => b"unknown op\n",
            Last::Stopped(Stop::Ended) => b"cut short\n",
            Last::Stopped(Stop::TooLarge) => b"too large\n",
            Last::Stopped(Stop::ReadFailed) => b"read failed\n",
        }
    }
}

impl Probe {
    // One record, if there is one: between records the input may end.
    fn record(&mut self) -> Result<(), Last> {
        let number = match self.input.byte() {
            Err(Stop::Ended) => return Err(Last::End),
            number => number?,
        };
        let op = Op::try_from(number)?;
        self.call(op)?;
        Ok(())
    }

    // Record after record. Nothing says that the input ends, so the records are counted, up to a number that no run reaches.
    fn run(&mut self) {
        for _ in 0..u64::MAX {
            if let Err(last) = self.record() {
                self.lines.text(last.line());
                return;
            }
        }
    }
}

fn main(rt: HostRuntime) {
    let mut probe = Probe {
        input: Input::new(rt.stdin()),
        lines: Lines::new(rt.stdout()),
        text: [0; TEXT_ROOM],
        clips: [0; WORD_ROOM],
        tags: [0; WORD_ROOM],
        out: [0; TEXT_ROOM],
    };
    probe.run();
    probe.lines.flush();
}
