//! Whether a word stands in a list of words.

ghost use Rattle.std.specs.Prelude.{◌≡◌};
ghost use Rattle.std.specs.List.{list_any};
ghost use Rattle.names.specs.Places.{same_name};

/// Whether the word is one of these.
pub fn is_listed(word: &str, words: &[&str]) -> bool
    ensures { result ≡ list_any (λ w. same_name word.now w.now) words.now }
{
    words.iter().any(|listed| word == *listed)
}
