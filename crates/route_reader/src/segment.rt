//! Segments: the form of their tokens.
ghost use Rattle.std.specs.Prelude.{◌≡◌, ℕ, ◌∷◌, List, position};
ghost use Rattle.gr_base.specs.declared.frame.Frame.{Frame};
ghost use Rattle.solution_text.specs.Grammar.{is_mark, segment};
ghost use Rattle.route_reader.specs.Segments.{parted, after_cut, after_point, run_of_ends};

/// A text in two parts, before and behind a mark.
#[derive(Clone, Copy)]
pub(crate) struct SplitText<'t> {
    before: &'t [u8],
    rest: &'t [u8],
}

/// A point of a text, as it is written: what stands in front of its bracket, its numbers, and what
/// follows it.
#[derive(Clone, Copy)]
pub(crate) struct Written<'t> {
    pub(crate) lead: &'t [u8],
    pub(crate) x: &'t [u8],
    pub(crate) y: &'t [u8],
    pub(crate) layer: &'t [u8],
    rest: &'t [u8],
}

/// The two points of a segment.
#[derive(Clone, Copy)]
pub(crate) struct Points<'t> {
    pub(crate) from: Written<'t>,
    pub(crate) to: Written<'t>,
}

/// Whether the byte parts the numbers of a segment.
fn is_mark(byte: u8) -> bool
    ensures { result ≡ is_mark byte }
{
    byte == b'(' || byte == b')' || byte == b','
}

fn first_mark(text: &[u8]) -> Option<usize>
    ensures { result ≡ position is_mark text.now }
{
    text.iter().position(|byte| is_mark(*byte))
}

/// Cuts the text at its first mark, if it is this one.
fn cut_at<'t>(text: &'t [u8], mark: u8) -> Option<SplitText<'t>>
    ensures { (marks : List ℕ) → parted (mark ∷ marks) text.now ≡ after_cut marks result }
{
    let at = first_mark(text)?;
    if text[at] != mark {
        return None;
    }
    Some(SplitText {
        before: &text[..at],
        rest: &text[at + 1..],
    })
}

/// The point that the text begins with, if the first marks are those of a point.
fn point<'t>(text: &'t [u8]) -> Option<Written<'t>>
    ensures { (marks : List ℕ) → parted (40 ∷ 44 ∷ 44 ∷ 41 ∷ marks) text.now ≡ after_point marks result }
{
    let open = cut_at(text, b'(')?;
    let x = cut_at(open.rest, b',')?;
    let y = cut_at(x.rest, b',')?;
    let layer = cut_at(y.rest, b')')?;
    Some(Written {
        lead: open.before,
        x: x.before,
        y: y.before,
        layer: layer.before,
        rest: layer.rest,
    })
}

/// The two points of a segment, if the token's marks are those of a segment, with a hyphen alone
/// between the points.
pub(crate) fn ends_of<'t>(token: &'t [u8]) -> Option<Points<'t>>
    ensures { (frame : Frame) → segment frame token.now ≡ run_of_ends frame result }
{
    let from = point(token)?;
    let to = point(from.rest)?;
    if !from.lead.is_empty() || to.lead != b"-".as_slice() || !to.rest.is_empty() {
        return None;
    }
    Some(Points { from, to })
}
