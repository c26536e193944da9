//! The lines that are told on err.
ghost use Rattle.std.specs.Prelude.{◌≡◌, IfOk};
ghost use Rattle.command_form.specs.Lines.{fault_line, memory_line, name_of, net_line, read_line, text_name, usage_line};

use gr_io::Slot;
use gr_text::Text;
use std::alloc::{AllocError, Global};
use word_reader::Program;

/// A program's name.
fn name_of(program: Program) -> &'static [u8]
    ensures { result.now ≡ name_of program }
{
    match program {
        Program::Groute => b"groute",
        Program::Grbound => b"grbound",
    }
}

/// The name under which a text is told.
fn text_name(text: Slot) -> &'static [u8]
    ensures { result.now ≡ text_name text }
{
    match text {
        Slot::Design => b"design",
        Slot::Library => b"library",
        Slot::Solution => b"solution",
    }
}

/// The line of words that give no order.
pub(crate) fn usage_line(program: Program) -> &'static [u8]
    ensures { result.now ≡ usage_line program }
{
    match program {
        Program::Groute => b"groute: usage\n",
        Program::Grbound => b"grbound: usage\n",
    }
}

/// The line of a read that failed.
pub(crate) fn read_line(program: Program) -> &'static [u8]
    ensures { result.now ≡ read_line program }
{
    match program {
        Program::Groute => b"groute: a read failed\n",
        Program::Grbound => b"grbound: a read failed\n",
    }
}

/// The line of want of memory, which takes none itself.
pub(crate) fn memory_line(program: Program) -> &'static [u8]
    ensures { result.now ≡ memory_line program }
{
    match program {
        Program::Groute => b"groute: out of memory\n",
        Program::Grbound => b"grbound: out of memory\n",
    }
}

/// The line of a fault of a text. The only error is want of memory.
pub(crate) fn fault_line(
    alloc: Global,
    program: Program,
    text: Slot,
    number: u8,
    token: u64,
) -> Result<Text, AllocError>
    ensures { IfOk result (λ line. line ≡ fault_line program text number token) }
{
    let mut line = Text::new(alloc);
    line.put(name_of(program))?;
    line.put(b": ")?;
    line.put(text_name(text))?;
    line.put(b" fault ")?;
    line.put_number(i128::from(number))?;
    line.put(b" at token ")?;
    line.put_number(i128::from(token))?;
    line.put(b"\n")?;
    Ok(line)
}

/// The line of a net whose edges aren't a tree. The only error is want of memory.
pub(crate) fn net_line(alloc: Global, program: Program, id: u32) -> Result<Text, AllocError>
    ensures { IfOk result (λ line. line ≡ net_line program id) }
{
    let mut line = Text::new(alloc);
    line.put(name_of(program))?;
    line.put(b": solution net ")?;
    line.put_number(i128::from(id))?;
    line.put(b" is not a tree\n")?;
    Ok(line)
}
