//! Steps that several parts of the text are read by.
ghost use Rattle.std.specs.Prelude.{◌≡◌, ◌-◌, ◌<◌, ◌≤◌, IsTrue, IfOk};
ghost use Rattle.gr_text.specs.Reads.{ReadsBy, Moves};
ghost use Rattle.ispd_reader.specs.Steps.{words, layer_in};

use crate::fault::DesignFault;
use gr_base::{MOST_ID, Shape};
use gr_text::{Ends, ReadError, TokenSource, check, natural, word};

pub(crate) const ENDS: Ends<DesignFault> = Ends {
    ended: DesignFault::Ended,
    too_long: DesignFault::TooLong,
};

/// Takes the next two tokens, which have to be these words.
#[tactic(auto, unfolding(crate::specs::Steps::words))]
pub(crate) fn words<S: TokenSource>(
    source: &mut S,
    first: &[u8],
    second: &[u8],
) -> Result<(), ReadError<DesignFault>>
    ensures reads { ReadsBy S.tells S.place (words first.now second.now) (λ _. tt) result source.old source.new }
    ensures moves { Moves S.faults S.reaches S.stops S.origin result source.old source.new }
{
    word(source, ENDS, DesignFault::Word, first)?;
    word(source, ENDS, DesignFault::Word, second)
}

/// Takes the next token, which has to be one of the grid's layers: they count from 1 in the text,
/// and from 0 in the answer.
#[tactic(auto, unfolding(crate::specs::Steps::layer_in))]
pub(crate) fn layer_in<S: TokenSource>(
    source: &mut S,
    shape: Shape,
    fault: DesignFault,
) -> Result<u32, ReadError<DesignFault>>
    ensures reads { ReadsBy S.tells S.place (layer_in shape fault) (λ n. n) result source.old source.new }
    ensures moves { Moves S.faults S.reaches S.stops S.origin result source.old source.new }
    ensures layer { IfOk result (λ layer. layer < shape.layers) }
{
    let layer = natural(source, ENDS, DesignFault::Number, MOST_ID)?;
    check(source, 1 <= layer && layer <= shape.layers(), fault)?;
    Ok(layer - 1)
}
