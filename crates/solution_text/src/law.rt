//! The law that the text written of the nets' edges, read as any solution is, gives the same edges again.
ghost use Rattle.solution_text.specs.Laws.{WrittenTextCovers};

/// Does nothing. Its clause is a law: the text that is written of the nets' edges, read back as any
/// solution is, gives each routed net just its edges.
pub fn written_text_is_covered()
    ensures { WrittenTextCovers }
{}
