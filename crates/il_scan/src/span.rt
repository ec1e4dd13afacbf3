// A range of a program's read-only points.
ghost use Rattle.std.specs.Prelude.{◌≡◌, max, min};

/// A range of the read-only points, by their indices among them: from `from` up to, but not
/// including, `to`.
#[derive(Clone, Copy)]
pub struct Span {
    pub from: usize,
    pub to: usize,
}

impl Span {
    /// Returns the span from the lesser `from` to the greater `to`, which has the points of both.
    #[inline(always)]
    pub fn with(self, other: Span) -> Span
        ensures from { result.from ≡ min self.from other.from }
        ensures to { result.to ≡ max self.to other.to }
    {
        let from = if self.from < other.from {
            self.from
        } else {
            other.from
        };
        let to = if self.to < other.to {
            other.to
        } else {
            self.to
        };
        Span { from, to }
    }
}
