// The words that a program is run with.
ghost use Rattle.std.specs.Prelude.{◌≡◌, ◌↔◌, IsTrue, MatchOption, option_map};
ghost use Rattle.hrana_serve.specs.Words.{IsToken, IsReplay, AsksReplay, texts_of};

/// The longest token, in bytes.
pub const MAX_TOKEN_BYTES: usize = 4096;

/// What the limit is.
pub fn limits_are()
    ensures { MAX_TOKEN_BYTES ≡ 4096 }
{}

fn is_token(word: &str) -> bool
    ensures { IsTrue result ↔ IsToken word.now }
{
    !word.is_empty() && word.len() <= MAX_TOKEN_BYTES
}

/// The token that a replay requires, or that it requires none, where the words are those of a replay.
pub fn replay_token<'a>(words: &[&'a str]) -> Option<Option<&'a str>>
    ensures { MatchOption result (¬ (AsksReplay (texts_of words.now))) (λ token. IsReplay (texts_of words.now) (option_map (λ word. word.now) token)) }
{
    match words {
        ["replay"] => Some(None),
        ["replay", token] => {
            if is_token(token) {
                Some(Some(*token))
            } else {
                None
            }
        }
        _ => None,
    }
}
