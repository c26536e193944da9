//! The words of a library text.
ghost use Rattle.std.specs.Prelude.{◌≡◌, ◌≤◌, IfSome};
ghost use Rattle.rc_library.specs.Keywords.{since, named, keyword_of};

/// What an item is of, and the end of them all.
#[derive(Clone, Copy, Debug, PartialEq, Eq)]
pub(crate) enum Keyword {
    Wire,
    Via,
    Driver,
    Sink,
    Kind,
    Block,
    Drive,
    Pin,
    Inverter,
    Flip,
    End,
}

impl Keyword {
    /// The first version of library texts that has the word.
    fn since(self) -> u32
        ensures { result ≡ since self }
    {
        match self {
            Keyword::Wire | Keyword::Via | Keyword::Driver => 1,
            Keyword::Sink | Keyword::Kind | Keyword::End => 1,
            Keyword::Block | Keyword::Drive | Keyword::Pin => 2,
            Keyword::Inverter | Keyword::Flip => 3,
        }
    }
}

/// The keyword that a word is in the last version.
fn named(word: &[u8]) -> Option<Keyword>
    ensures { result ≡ named word.now }
{
    if word == b"pin".as_slice() {
        Some(Keyword::Pin)
    } else if word == b"block".as_slice() {
        Some(Keyword::Block)
    } else if word == b"drive".as_slice() {
        Some(Keyword::Drive)
    } else if word == b"flip".as_slice() {
        Some(Keyword::Flip)
    } else if word == b"wire".as_slice() {
        Some(Keyword::Wire)
    } else if word == b"via".as_slice() {
        Some(Keyword::Via)
    } else if word == b"driver".as_slice() {
        Some(Keyword::Driver)
    } else if word == b"sink".as_slice() {
        Some(Keyword::Sink)
    } else if word == b"kind".as_slice() {
        Some(Keyword::Kind)
    } else if word == b"inverter".as_slice() {
        Some(Keyword::Inverter)
    } else if word == b"end".as_slice() {
        Some(Keyword::End)
    } else {
        None
    }
}

/// The keyword that a word is in a version.
pub(crate) fn keyword_of(version: u32, word: &[u8]) -> Option<Keyword>
    ensures keyword { result ≡ keyword_of version word.now }
    ensures since { IfSome result (λ keyword. since keyword ≤ version) }
{
    let keyword = named(word)?;
    if keyword.since() <= version {
        Some(keyword)
    } else {
        None
    }
}
