//! The first of the words.
ghost use Rattle.std.specs.Prelude.{◌≡◌, true, map, string_bytes};
ghost use Rattle.autopush_serve.specs.Endings.{BeginsServe};

/// Whether the first word is `serve`. The words are those after the program's name.
pub fn is_serve(words: &[String]) -> bool
    ensures yes { result ≡ true → BeginsServe (map string_bytes words.now) }
    ensures no { BeginsServe (map string_bytes words.now) → result ≡ true }
{
    match words {
        [name, ..] => name.as_str() == "serve",
        [] => false,
    }
}
