// Guest memory: windows that aren't refused on the lent run.
ghost use Rattle.std.specs.Prelude.{length};
ghost use Rattle.image.specs.Spans.{Opened};

use crate::Span;

// The first window is at hand: it is the only one of most guests, and read once.
#[derive(Clone, Copy)]
pub struct Memory<'a> {
    pub first: Span,
    pub windows: &'a [u64],
    pub image: &'a [u8],
    ghost opened: { Opened first windows.now (length image.now) },
}
