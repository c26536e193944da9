//! What a round did, and its line.
ghost use Rattle.std.specs.Prelude.{◌≡◌, ◌++◌, OnOk};
ghost use Rattle.std.specs.Fmt.{decimal};
ghost use Rattle.round_trace.specs.RoundLines.{round_line};

use gr_text::Text;
use std::alloc::AllocError;

/// What a round did: the overflow that its mark answers, in units of width, and how many of its claims
/// were answered Claimed, and how many Full.
#[derive(Clone, Copy, Debug)]
pub(crate) struct RoundDone {
    pub round: u64,
    pub overflow: u128,
    pub nets: u64,
    pub full: u64,
}

/// Puts the line of a round at the end of the text. At an error a first part of it may have been added.
pub(crate) fn put_round(text: &mut Text, done: RoundDone) -> Result<(), AllocError>
    ensures { OnOk result (text.new ≡ text.old ++ round_line done) }
{
    put_counted(text, b"round ", u128::from(done.round))?;
    put_counted(text, b" overflow ", done.overflow)?;
    put_counted(text, b" nets ", u128::from(done.nets))?;
    put_counted(text, b" full ", u128::from(done.full))?;
    text.put(b"\n")?;
    Ok(())
}

/// Puts a word and a number at the end of the text.
fn put_counted(text: &mut Text, word: &[u8], number: u128) -> Result<(), AllocError>
    ensures { OnOk result (text.new ≡ text.old ++ word.now ++ decimal number) }
{
    text.put(word)?;
    text.put_number(number)?;
    Ok(())
}
