//! The law of sorted words.
ghost use Rattle.std.specs.Prelude.{ℕ, List};
ghost use Rattle.word_reader.specs.Sorting.{SortsByRule};

/// Words are sorted as the rule says, which tells of each word by those before it whether it is a
/// positional, an option or an option's value. The function itself does nothing.
pub fn words_sort_by_rule()
    ensures { (words : List (List ℕ)) → SortsByRule words }
{}
