//! Finds where words begin and end among bytes that lie in memory.
ghost use Rattle.std.specs.Prelude.{◌≡◌, ◌≤◌, not, length, position};
ghost use Rattle.std.specs.List.{position_or_len};
ghost use Rattle.gr_text.specs.Tokens.{is_blank};

/// Whether the byte stands between tokens: a blank, a tab, a line feed or a carriage return.
pub fn is_blank(byte: u8) -> bool
    ensures { result ≡ is_blank byte }
{
    byte == b' ' || byte == b'\t' || byte == b'\n' || byte == b'\r'
}

fn first_solid(bytes: &[u8]) -> Option<usize>
    ensures { result ≡ position (λ byte. not (is_blank byte)) bytes.now }
{
    bytes.iter().position(|byte| !is_blank(*byte))
}

fn first_blank(bytes: &[u8]) -> Option<usize>
    ensures { result ≡ position is_blank bytes.now }
{
    bytes.iter().position(|byte| is_blank(*byte))
}

/// The place of the first byte that isn't blank, or the length.
#[tactic(auto, using(crate::proofs::ScanLemmas::found))]
pub fn word_start(bytes: &[u8]) -> usize
    ensures start { result ≡ position_or_len (λ byte. not (is_blank byte)) bytes.now }
    ensures within { result ≤ length bytes.now }
{
    first_solid(bytes).unwrap_or(bytes.len())
}

/// The place of the first blank byte, or the length.
#[tactic(auto, using(crate::proofs::ScanLemmas::found))]
pub fn word_end(bytes: &[u8]) -> usize
    ensures end { result ≡ position_or_len is_blank bytes.now }
    ensures within { result ≤ length bytes.now }
{
    first_blank(bytes).unwrap_or(bytes.len())
}
