// What a record asks for. A record begins with its op's number, and so does the line of its answer.
#[derive(Clone, Copy)]
pub enum Op {
    Verdict = 1,
    Reader = 2,
    Writer = 3,
    Total = 4,
    StartTick = 5,
    Window = 6,
    ClipTicks = 7,
    ClipAt = 8,
    CueWriter = 9,
    CueReader = 10,
    PlayingAt = 13,
    Starts = 14,
    Room = 15,
    StartNs = 28,
    Windows = 29,
}

// A number that is no op's.
#[derive(Clone, Copy)]
pub struct UnknownOp;

impl TryFrom<u8> for Op {
    type Error = UnknownOp;

    fn try_from(number: u8) -> Result<Op, UnknownOp> {
        match number {
            1 => Ok(Op::Verdict),
            2 => Ok(Op::Reader),
            3 => Ok(Op::Writer),
            4 => Ok(Op::Total),
            5 => Ok(Op::StartTick),
            6 => Ok(Op::Window),
            7 => Ok(Op::ClipTicks),
            8 => Ok(Op::ClipAt),
            9 => Ok(Op::CueWriter),
            10 => Ok(Op::CueReader),
            13 => Ok(Op::PlayingAt),
            14 => Ok(Op::Starts),
            15 => Ok(Op::Room),
            28 => Ok(Op::StartNs),
            29 => Ok(Op::Windows),
            _ => Err(UnknownOp),
        }
    }
}
