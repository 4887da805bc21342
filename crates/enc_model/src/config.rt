// Configurations: what there is between two steps.

use crate::{Locals, TrapKind, Value};
use enc_ast::{Row, Span};

/// All actors by their numbers, all cells by theirs, and the bytes that were printed.
#[derive(Debug, Drop)]
pub struct Config {
    pub actors: Row<Actor>,
    pub cells: Row<Cell>,
    pub output: Row<u8>,
}

impl Config {
    ghost use Rattle.std.specs.Prelude.{◌≡◌, ◌<◌, ◌^◌, length};
    ghost use Rattle.enc_model.specs.Phase.{first_trap, waiting};

    /// The trap of the least actor that has trapped: its number, the trap, and the part of the text
    /// that trapped.
    pub fn first_trap(&self) -> Option<(u32, TrapKind, Span)>
        requires { length self.now.actors < 2 ^ 32 }
        ensures { result ≡ first_trap self.now }
    {
        for (number, actor) in self.actors.as_slice().iter().enumerate() {
            if let Some((kind, span)) = actor.trap {
                return Some((number as u32, kind, span));
            }
        }
        None
    }

    /// How many actors have begun something that isn't at its end.
    pub fn waiting(&self) -> usize
        ensures { result ≡ waiting self.now }
    {
        let mut count = 0;
        for actor in self.actors.as_slice() {
            if actor.task.is_some() {
                count += 1;
            }
        }
        count
    }
}

/// An actor: what waits for it, what it is doing, and why it has stopped for good, where it has.
#[derive(Debug, Drop)]
pub struct Actor {
    pub mailbox: Row<Message>,
    pub task: Option<Task>,
    pub trap: Option<(TrapKind, Span)>,
}

/// A call of `main` that waits to be taken, with the cell of its result.
#[derive(Clone, Copy, Debug, PartialEq, Eq)]
pub struct Message {
    pub cell: u32,
}

/// The work on a message.
#[derive(Debug, Drop)]
pub struct Task {
    pub cell: u32,
    pub frame: Frame,
}

/// A place in the statements of a body, and the variables there.
#[derive(Debug, Drop)]
pub struct Frame {
    /// How many statements were made. The next one has this index.
    pub at: u32,
    pub locals: Locals,
}

/// The result of a message.
#[derive(Debug, Drop)]
pub enum Cell {
    Pending,
    Full(Value),
}
