//! The arithmetic of spans: what one more layer makes of them, what a climb costs, and their numbers in tables.
ghost use Rattle.std.specs.Prelude.{◌≡◌, ◌<◌, ◌≤◌, IfSome};
ghost use Rattle.layer_assign.specs.Spans.{widened, climb, IsWithin, span_number, spans_of, next_span};

use crate::span::Span;
use cost_rules::VIA_PRICE;
use gr_base::Shape;

/// A tile's span with one more layer.
pub(crate) fn widened(span: Option<Span>, layer: u32) -> Option<Span>
    ensures { result ≡ widened span layer }
{
    match span {
        None => Some(Span {
            low: layer,
            high: layer,
        }),
        Some(span) => Some(Span {
            low: span.low.min(layer),
            high: span.high.max(layer),
        }),
    }
}

/// What it costs to climb a tile's span: as much as a via edge for each layer.
pub(crate) fn climb(span: Option<Span>) -> u64
    requires { IfSome span (λ s. s.low ≤ s.high) }
    ensures { result ≡ climb span }
{
    match span {
        None => 0,
        Some(span) => VIA_PRICE * u64::from(span.high - span.low),
    }
}

/// How many spans a grid has, with none.
pub(crate) fn spans_of(shape: Shape) -> usize
    ensures count { result ≡ spans_of shape.layers }
    ensures some { 0 < result }
    ensures most { result ≤ 137 }
{
    let layers = shape.layers() as usize;
    1 + layers * (layers + 1) / 2
}

/// The number of a tile's span. A wider span has a greater number.
pub(crate) fn span_number(shape: Shape, span: Option<Span>) -> usize
    requires { IsWithin shape.layers span }
    ensures number { result ≡ span_number shape.layers span }
    ensures below { result < spans_of shape.layers }
{
    let Some(span) = span else {
        return 0;
    };
    let row = (shape.layers() - 1 - span.low) as usize;
    1 + row * (row + 1) / 2 + (span.high - span.low) as usize
}

/// The span of the next number, and none after the widest.
pub(crate) fn next_span(shape: Shape, span: Option<Span>) -> Option<Span>
    requires { IsWithin shape.layers span }
    ensures { result ≡ next_span shape.layers span }
{
    let layers = shape.layers();
    match span {
        None => Some(Span {
            low: layers - 1,
            high: layers - 1,
        }),
        Some(span) if span.high + 1 < layers => Some(Span {
            high: span.high + 1,
            ..span
        }),
        Some(span) if span.low == 0 => None,
        Some(span) => Some(Span {
            low: span.low - 1,
            high: span.low - 1,
        }),
    }
}
