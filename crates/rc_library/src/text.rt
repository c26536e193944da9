//! A whole library text.
ghost use Rattle.std.specs.Prelude.{◌≡◌, ℕ, ◌≤◌, IsTrue, IfOk, IfSome, OnOk, Ok};
ghost use Rattle.gr_base.specs.Limits.{most_bytes};
ghost use Rattle.gr_text.specs.Reads.{ReadsBy, Moves, Counts, Onward};
ghost use Rattle.gr_text.specs.Reading.{given};
ghost use Rattle.rc_library.specs.Libraries.{IsLibraryOf};
ghost use Rattle.rc_library.specs.Gathered.{IsOf, IsLike, finished};
ghost use Rattle.rc_library.specs.Keywords.{since};
ghost use Rattle.rc_library.specs.LibraryText.{keyword, items, version_of, version, library};
ghost use Rattle.rc_library.specs.declared.fault.LibraryFault.TheVariants as fault;

use crate::fault::LibraryFault;
use crate::gathered::Gathered;
use crate::items::item;
use crate::keyword::{Keyword, keyword_of};
use crate::library::Library;
use crate::steps::ENDS;
use gr_base::{Design, MOST_BYTES};
use gr_text::{ReadError, TokenSource, end, given, next_token, word};
use std::alloc::Global;

/// Takes the word that an item begins with, or `end`.
#[tactic(auto, unfolding(crate::specs::LibraryText::keyword))]
fn keyword<S: TokenSource>(source: &mut S, version: u32) -> Result<Keyword, ReadError<LibraryFault>>
    ensures reads { ReadsBy S.tells S.place (keyword version) (λ keyword. keyword) result source.old source.new }
    ensures moves { Moves S.faults S.reaches S.stops S.origin result source.old source.new }
    ensures since { IfOk result (λ keyword. since keyword ≤ version) }
{
    next_token(source, ENDS)?;
    let keyword = given(
        source,
        keyword_of(version, source.word()),
        LibraryFault::Word,
    )?;
    Ok(keyword)
}

/// Takes the items up to the word `end`, and that word.
fn items<S: TokenSource>(
    alloc: Global,
    source: &mut S,
    design: &Design,
    gathered: &mut Gathered,
) -> Result<(), ReadError<LibraryFault>>
    requires of { IsOf design.now gathered.old }
    ensures reads { ReadsBy S.tells S.place (items most_bytes design.now gathered.old)
        (λ _. gathered.new) result source.old source.new }
    ensures moves { Moves S.faults S.reaches S.stops S.origin result source.old source.new }
    ensures like { OnOk result (IsLike gathered.old gathered.new) }
{
    for _ in 0..MOST_BYTES {
        let keyword = keyword(source, gathered.version())?;
        if let Keyword::End = keyword {
            return Ok(());
        }
        item(alloc, source, design, gathered, keyword)?;
    }
    // No text has so many items.
    Err(ReadError::NoMemory)
}

/// The version that a word names.
fn version_of(word: &[u8]) -> Option<u32>
    ensures version { result ≡ version_of word.now }
    ensures least { IfSome result (λ version. 1 ≤ version) }
    ensures greatest { IfSome result (λ version. version ≤ 3) }
{
    if word == b"1".as_slice() {
        Some(1)
    } else if word == b"2".as_slice() {
        Some(2)
    } else if word == b"3".as_slice() {
        Some(3)
    } else {
        None
    }
}

/// Takes the word `library` and the version.
#[tactic(auto, unfolding(crate::specs::LibraryText::version))]
fn version<S: TokenSource>(source: &mut S) -> Result<u32, ReadError<LibraryFault>>
    ensures reads { ReadsBy S.tells S.place version (λ version. version) result source.old source.new }
    ensures moves { Moves S.faults S.reaches S.stops S.origin result source.old source.new }
    ensures least { IfOk result (λ version. 1 ≤ version) }
    ensures greatest { IfOk result (λ version. version ≤ 3) }
{
    word(source, ENDS, LibraryFault::Word, b"library")?;
    next_token(source, ENDS)?;
    let version = given(source, version_of(source.word()), LibraryFault::Word)?;
    Ok(version)
}

/// The library that was gathered, where the token in hand is its end and nothing is missing.
fn finish<S: TokenSource>(
    alloc: Global,
    source: &S,
    design: &Design,
    gathered: Gathered,
) -> Result<Library, ReadError<LibraryFault>>
    requires of { IsOf design.now gathered }
    ensures reads { ReadsBy S.tells S.place (given (finished gathered) fault.Missing) (λ library. library) result
        source.now source.now }
    ensures faults { (count : ℕ) → Counts result count count }
    ensures onward { Onward S.reaches S.stops result source.now source.now }
    ensures of { IfOk result (IsLibraryOf design.now) }
{
    let Ok(library) = gathered.finish(alloc) else {
        return Err(ReadError::NoMemory);
    };
    given(source, library, LibraryFault::Missing)
}

/// Reads a whole library text.
#[tactic(auto, unfolding(crate::specs::LibraryText::library))]
pub(crate) fn library<S: TokenSource>(
    alloc: Global,
    source: &mut S,
    design: &Design,
) -> Result<Library, ReadError<LibraryFault>>
    ensures reads { ReadsBy S.tells S.place (library design.now) (λ library. library) result source.old source.new }
    ensures of { IfOk result (IsLibraryOf design.now) }
    ensures moves { Moves S.faults S.reaches S.stops S.origin result source.old source.new }
    ensures ended { OnOk result (IsTrue S.tells → S.ended source.new) }
{
    let version = version(source)?;
    let Ok(mut gathered) = Gathered::new(alloc, design, version) else {
        return Err(ReadError::NoMemory);
    };
    items(alloc, source, design, &mut gathered)?;
    let library = finish(alloc, source, design, gathered)?;
    end(source, ENDS, LibraryFault::Trailing)?;
    Ok(library)
}
