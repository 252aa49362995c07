// How far a conversion came.

/// How many bytes of a slice were used, and how many were made of them in another.
#[derive(Clone, Copy)]
pub struct Span {
    pub used: usize,
    pub made: usize,
}
