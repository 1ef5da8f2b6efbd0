//! Worked examples of the definitions, each for a reader to check at a glance.
ghost use Rattle.std.specs.Prelude.{◌≡◌, Some, None, codes};
ghost use Rattle.push_paths.specs.Paths.{token_of};

/// A token stands behind the prefix, alone, up to the query.
pub fn tokens_stand_behind_the_prefix()
    ensures plain { token_of (codes "/wpush/v1/abc") ≡ Some (codes "abc") }
    ensures query { token_of (codes "/wpush/v1/abc?/x") ≡ Some (codes "abc") }
    ensures as_it_is { token_of (codes "/wpush/v1/a%2Fb") ≡ Some (codes "a%2Fb") }
    ensures empty { token_of (codes "/wpush/v1/") ≡ None }
    ensures only_query { token_of (codes "/wpush/v1/?abc") ≡ None }
    ensures two_parts { token_of (codes "/wpush/v1/abc/") ≡ None }
    ensures other { token_of (codes "/wpush/v2/abc") ≡ None }
    ensures case { token_of (codes "/WPUSH/v1/abc") ≡ None }
    ensures absolute { token_of (codes "http://a/wpush/v1/abc") ≡ None }
    ensures star { token_of (codes "*") ≡ None }
{}
