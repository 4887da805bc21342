// Schedules, and how far a run has come.

use enc_ast::Row;

/// An actor makes so many steps, at least 1.
#[derive(Clone, Copy, Debug, PartialEq, Eq)]
pub struct Pair {
    pub actor: u32,
    pub steps: u32,
}

/// The actors make these numbers of steps, in this order.
#[derive(Debug, Drop)]
pub struct Schedule {
    pub pairs: Row<Pair>,
}

/// Whether a step touches its actor alone.
#[derive(Clone, Copy, Debug, PartialEq, Eq)]
pub enum Stepped {
    Local,
    Interaction,
}

/// How far a run has come.
#[derive(Clone, Copy, Debug, PartialEq, Eq)]
pub enum Phase {
    /// Some actor is ready.
    Running,
    /// No actor is ready, and one has trapped.
    Trapped,
    /// No actor is ready and none has trapped, and one waits.
    Blocked,
    /// No actor is ready, none has trapped and none waits.
    Ended,
}
