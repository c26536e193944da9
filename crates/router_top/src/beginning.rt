//! What a design's rounds begin from.
ghost use Rattle.std.specs.Prelude.{◌≡◌, ◌++◌, [], ℕ, List, Some, false, count_by, is_some, IfOk, OnOk};
ghost use Rattle.std.specs.Borrow.{Bor};
ghost use Rattle.std.specs.List.{range_with_len};
ghost use Rattle.std.specs.Option.{option_map};
ghost use Rattle.gr_base.specs.Trees.{tree_at};
ghost use Rattle.gr_io.specs.Devices.{reading_of};
ghost use Rattle.router_top.specs.Beginning.{kept_told, OpensBeginning};

use command_form::{Stop, open_solution};
use gr_base::{Design, Routes};
use gr_io::Shelf;
use gr_text::Text;
use kept_routes::kept_routes;
use std::alloc::{AllocError, Global};

/// The trees that nets are given before the rounds begin.
#[derive(Drop)]
pub(crate) struct Beginning {
    pub given: Routes,
    /// Whether they are those of a solution.
    pub from_solution: bool,
}

impl Beginning {
    /// No trees. The only error is want of memory.
    pub(crate) fn from_nothing(alloc: Global) -> Result<Beginning, AllocError>
        ensures given { IfOk result (λ b. b.given ≡ []) }
        ensures from { IfOk result (λ b. b.from_solution ≡ false) }
    {
        Ok(Beginning {
            given: Routes::new(alloc, 0)?,
            from_solution: false,
        })
    }
}

/// The trees of the nets that can be kept as the solution of this name routes them, or none where none is
/// named.
pub(crate) fn open_beginning<S: Shelf>(
    alloc: Global,
    shelf: &mut S,
    design: &Design,
    from: Option<&str>,
) -> Result<Beginning, Stop>
    ensures { OpensBeginning (reading_of S.tells S.held S.faults S.misses shelf.old shelf.new)
        design.now (option_map (λ (name : Bor (List ℕ)). name.now) from.entry) result }
{
    match from {
        Some(name) => open_kept(alloc, shelf, design, name),
        None => match Beginning::from_nothing(alloc) {
            Ok(beginning) => Ok(beginning),
            Err(_) => Err(Stop::NoMemory),
        },
    }
}

/// The trees of the nets that can be kept as the solution of this name routes them.
fn open_kept<S: Shelf>(
    alloc: Global,
    shelf: &mut S,
    design: &Design,
    name: &str,
) -> Result<Beginning, Stop>
    ensures { OpensBeginning (reading_of S.tells S.held S.faults S.misses shelf.old shelf.new)
        design.now (Some name.now) result }
{
    let solution = open_solution(alloc, shelf, design, name)?;
    let Ok(given) = kept_routes(alloc, design, &solution) else {
        return Err(Stop::NoMemory);
    };
    Ok(Beginning {
        given,
        from_solution: true,
    })
}

/// Puts the line that tells how many nets are kept, where the rounds begin from a solution. At an error a
/// first part of it may have been added.
pub(crate) fn put_kept(
    text: &mut Text,
    design: &Design,
    beginning: &Beginning,
) -> Result<(), AllocError>
    ensures { OnOk result (text.new ≡ text.old ++ kept_told design.now beginning.now) }
{
    if !beginning.from_solution {
        return Ok(());
    }
    let kept = kept_nets(&beginning.given, design.nets());
    text.put_number_line(b"kept", u128::from(kept))
}

/// How many of so many nets have a tree.
fn kept_nets(given: &Routes, nets: u32) -> u32
    ensures { result ≡ count_by (λ net. is_some (tree_at given.now net)) (range_with_len 0 nets) }
{
    let mut kept = 0;
    for net in 0..nets {
        let Some(_) = given.get(net) else {
            continue;
        };
        kept += 1;
    }
    kept
}
