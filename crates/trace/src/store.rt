// What the program holds for its pool, and what it lends of that to a call.
ghost use Rattle.std.specs.Prelude.{◌≤◌};

use crate::say;
use lines::Line;
use replies::{Lent, MAX_FRAMES, MAX_ROOM, Objects};
use std::io;

const FIRST_FRAMES: usize = 6;

// The pool has so many frames, and the lent list room for so many notices: without a heap the arrays are the longest.
#[derive(Drop)]
pub struct Store {
    frames: usize,
    room: usize,
    nodes: [u32; 1024],
    pages: [u32; 4096],
    used: [u8; 64],
    mappings: [u32; 256],
    head: [u32; 4],
    memory: [u8; 262144],
    notices: [u32; 16384],
    buf: [u8; 262145],
    ghost frames_fit: { frames ≤ 64 },
    ghost room_fits: { room ≤ 4096 },
}

impl Store {
    // With a fresh pool, before the first `s`.
    pub fn new() -> Self {
        let mut nodes = [0; 1024];
        let mut pages = [0; 4096];
        let mut used = [0; 64];
        let mut mappings = [0; 256];
        let mut head = [0; 4];
        let memory = [0; 262144];
        // Not refused: the lengths are right.
        let _ = pool::start(
            &mut nodes,
            &mut pages,
            &mut used[..FIRST_FRAMES],
            &mut mappings,
            &mut head,
            &memory[..FIRST_FRAMES * 4096],
        );
        Store {
            frames: FIRST_FRAMES,
            room: MAX_ROOM as usize,
            nodes,
            pages,
            used,
            mappings,
            head,
            memory,
            notices: [0; 16384],
            buf: [0; 262145],
        }
    }

    // s F and a N change what the line is answered with, where they aren't refused.
    fn resize(&mut self, line: &Line) {
        match (line.letter, line.numbers()) {
            (b's', &[frames @ 1..=MAX_FRAMES]) => {
                self.frames = frames as usize;
                self.room = MAX_ROOM as usize;
            }
            (b'a', &[room @ 0..=MAX_ROOM]) => self.room = room as usize,
            _ => {}
        }
    }

    // A bad line is none.
    pub fn answer(&mut self, rt: &impl Print, line: Option<Line>) -> io::Result<()> {
        let Some(line) = line else {
            return say::bad(rt);
        };
        self.resize(&line);
        let frames = self.frames;
        let room = self.room;
        let used = &mut self.used[..];
        let memory = &mut self.memory[..];
        let notices = &mut self.notices[..];
        let mut lent = Lent {
            objects: Objects {
                nodes: &mut self.nodes,
                mappings: &mut self.mappings,
                head: &mut self.head,
            },
            store: lookup::Store {
                pages: &mut self.pages,
                used: &mut used[..frames],
                memory: &mut memory[..frames * 4096],
            },
            notices: &mut notices[..room * 4],
            buf: &mut self.buf,
        };
        match lent.call(&line) {
            Some(reply) => say::answer(rt, reply, &lent),
            None => say::bad(rt),
        }
    }
}
