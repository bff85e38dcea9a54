//! What a session passes between what it reads and what it does.

/// A session passes its gate once for each upload, after the text was read, and once for each sign-off, after the report
/// was made, each time before the change is asked for. A test that holds a session there sees that no other waits for it.
pub trait Gate: Drop {
    fn pass(&mut self);
}

/// A gate that does nothing.
#[derive(Clone, Copy, PartialEq, Eq)]
pub struct OpenGate;

impl Gate for OpenGate {
    fn pass(&mut self) {}
}
