// Values and variables.

use enc_ast::{Row, Word};
use std::alloc::{AllocError, Global};

/// What an expression can give.
#[derive(Debug, Drop)]
pub enum Value {
    Int(i64),
    Text(Row<u8>),
    Unit,
}

impl Value {
    ghost use Rattle.std.specs.Prelude.{◌≡◌, IfOk};

    /// The same value once more. Memory runs out where a text has no room.
    pub fn copy(&self, alloc: Global) -> Result<Value, AllocError>
        ensures { IfOk result (λ value. value ≡ self.now) }
    {
        match self {
            Value::Int(number) => Ok(Value::Int(*number)),
            Value::Text(bytes) => Ok(Value::Text(copy_bytes(alloc, bytes)?)),
            Value::Unit => Ok(Value::Unit),
        }
    }
}

ghost use Rattle.std.specs.Prelude.{◌≡◌, IfOk};

/// The same bytes once more.
pub(crate) fn copy_bytes(alloc: Global, bytes: &Row<u8>) -> Result<Row<u8>, AllocError>
    ensures { IfOk result (λ copied. copied ≡ bytes.now) }
{
    let mut copied = Row::new(alloc);
    copied.extend(bytes.as_slice())?;
    Ok(copied)
}

/// The variables of a frame, in the order in which they were bound. A moved one has no value.
#[derive(Debug, Drop)]
pub struct Locals {
    pub pairs: Row<(Word, Option<Value>)>,
}

/// Why an actor can make no further step.
#[derive(Clone, Copy, Debug, PartialEq, Eq)]
pub enum TrapKind {
    /// A result has more than 64 signed bits.
    Overflow,
}

impl TrapKind {
    ghost use Rattle.std.specs.Prelude.{◌≡◌};
    ghost use Rattle.enc_model.specs.Phase.{trap_name};

    /// The name by which users know the trap.
    pub fn name(self) -> &'static str
        ensures { result.now ≡ trap_name self }
    {
        match self {
            TrapKind::Overflow => "OVERFLOW",
        }
    }
}
