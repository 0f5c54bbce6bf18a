//! Instants from one up to another, as a line names them.
/// The instants from `a` up to `b`, `b` not among them, as a line of the text names them. Nothing
/// says yet that `a` is below `b`, or that either is below a horizon.
#[derive(Clone, Copy, Debug, PartialEq, Eq)]
pub struct Span {
    pub a: u64,
    pub b: u64,
}
