//! Points at which an actor may be held up.

/// Where an actor stands when it passes a gate.
#[derive(Clone, Copy, Debug, PartialEq, Eq)]
pub enum Point {
    AfterPull,
    BeforeSwitch,
    BeforeBegin,
    AfterDone,
}

/// What actors pass on their way. It answers nothing, and so changes no log.
pub trait Gate {
    /// Passes the gate at this point. Actors count from 1, clients before workers.
    fn pass(&self, point: Point, actor: u8);
}

/// The gate that holds nobody up.
#[derive(Clone, Copy, Debug)]
pub struct OpenGate;

impl Gate for OpenGate {
    fn pass(&self, _point: Point, _actor: u8) {}
}
