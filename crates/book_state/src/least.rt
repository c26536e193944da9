//! The first mark of least overflow.
ghost use Rattle.std.specs.Prelude.{◌≡◌, ℕ, ◌+◌, List, [], ◌∷◌, ◌++◌, length};
ghost use Rattle.book_state.specs.LeastSearch.{lesser, IsLeast};
ghost use Rattle.book_state.specs.declared.entry.Entry.{Entry};

use crate::entry::Reply;

/// A mark of a history: its overflow, and the length of the history up to and with it.
#[derive(Clone, Copy, Debug)]
pub(crate) struct MarkedAt {
    pub(crate) overflow: u128,
    pub(crate) length: u64,
}

/// The first mark of least overflow of a history that has grown to this length by an entry with this
/// reply, where it was `least` before.
pub(crate) fn least_after(least: Option<MarkedAt>, reply: Reply, grown: u64) -> Option<MarkedAt>
    ensures { (h : List Entry) (e : Entry) → e.reply ≡ reply → grown ≡ length h + 1 → IsLeast h least →
        IsLeast (h ++ e ∷ []) result }
{
    match reply {
        Reply::Marked { overflow } => Some(lesser_of(
            least,
            MarkedAt {
                overflow,
                length: grown,
            },
        )),
        _ => least,
    }
}

/// The one of less overflow, and the earlier one where they have the same.
fn lesser_of(earlier: Option<MarkedAt>, later: MarkedAt) -> MarkedAt
    ensures { result ≡ lesser earlier later }
{
    match earlier {
        Some(mark) => {
            if mark.overflow <= later.overflow {
                mark
            } else {
                later
            }
        }
        None => later,
    }
}
