// The words of a call.
ghost use Rattle.std.specs.Prelude.{◌≡◌, ◌↔◌, IsTrue, string_bytes};
ghost use Rattle.script_run.specs.Outcome.{IsRunSolo};

/// Whether the words are `run 1`.
#[tactic(auto, using(crate::proofs::TwoWords::two_words))]
pub(crate) fn is_run_solo(words: &[String]) -> bool
    ensures { IsTrue result ↔ IsRunSolo words.now }
{
    match words {
        [verb, lanes] => is_word(verb, "run") && is_word(lanes, "1"),
        _ => false,
    }
}

// Whether a word is this text.
fn is_word(word: &String, text: &str) -> bool
    ensures { IsTrue result ↔ (string_bytes word.now ≡ text.now) }
{
    word.as_str() == text
}
