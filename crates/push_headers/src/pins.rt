//! Worked examples of the definitions, each for a reader to check at a glance.
ghost use Rattle.std.specs.Prelude.{◌≡◌, ◌∷◌, [], true, false, Some, None, Ok, Err, codes, replicate};
ghost use Rattle.push_headers.specs.Asks.{parameter_of};
ghost use Rattle.push_headers.specs.Terms.{coding_by, is_parameter, topic_by, ttl_by, urgency_by};

use crate::check::HeadFault;
use push_model::{Coding, Urgency};

/// A ttl is one line of digits, at most 30 days.
pub fn ttls_are_digits()
    ensures missing { ttl_by [] ≡ Err HeadFault.MissingTtl }
    ensures plain { ttl_by (codes "60" ∷ []) ≡ Ok 60 }
    ensures capped { ttl_by (codes "99999999999999999999999" ∷ []) ≡ Ok 2592000 }
    ensures empty { ttl_by ([] ∷ []) ≡ Err HeadFault.BadTtl }
    ensures sign { ttl_by (codes "-1" ∷ []) ≡ Err HeadFault.BadTtl }
    ensures two { ttl_by (codes "60" ∷ codes "60" ∷ []) ≡ Err HeadFault.BadTtl }
{}

/// A topic may be left out.
pub fn topics_may_be_absent()
    ensures absent { topic_by [] ≡ Ok None }
    ensures plain { topic_by (codes "a-Z_9" ∷ []) ≡ Ok (Some (codes "a-Z_9")) }
    ensures empty { topic_by ([] ∷ []) ≡ Err HeadFault.BadTopic }
    ensures other { topic_by (codes "a=" ∷ []) ≡ Err HeadFault.BadTopic }
    ensures long { topic_by (replicate 33 97 ∷ []) ≡ Err HeadFault.BadTopic }
    ensures two { topic_by (codes "a" ∷ codes "a" ∷ []) ≡ Err HeadFault.BadTopic }
{}

/// An urgency is one of four words, and normal where none is named.
pub fn urgencies_are_words()
    ensures absent { urgency_by [] ≡ Ok Urgency.Normal }
    ensures very_low { urgency_by (codes "very-low" ∷ []) ≡ Ok Urgency.VeryLow }
    ensures high { urgency_by (codes "High" ∷ []) ≡ Ok Urgency.High }
    ensures other { urgency_by (codes "urgent" ∷ []) ≡ Err HeadFault.BadUrgency }
    ensures two { urgency_by (codes "low" ∷ codes "low" ∷ []) ≡ Err HeadFault.BadUrgency }
{}

/// A body has one of two codings, and an empty one has none.
pub fn codings_are_words()
    ensures empty { coding_by true (codes "gzip" ∷ []) ≡ Ok Coding.Bare }
    ensures absent { coding_by false [] ≡ Err HeadFault.BadEncoding }
    ensures current { coding_by false (codes "aes128gcm" ∷ []) ≡ Ok Coding.Aes128gcm }
    ensures draft { coding_by false (codes "aesgcm" ∷ []) ≡ Ok Coding.Aesgcm }
    ensures other { coding_by false (codes "gzip" ∷ []) ≡ Err HeadFault.BadEncoding }
    ensures two { coding_by false (codes "aesgcm" ∷ codes "aesgcm" ∷ []) ≡ Err HeadFault.BadEncoding }
{}

/// The two headers of the older draft are short and printable, and are kept for it alone.
pub fn parameters_are_printable()
    ensures absent { is_parameter [] ≡ true }
    ensures plain { is_parameter (codes "salt=x" ∷ []) ≡ true }
    ensures tab { is_parameter ((97 ∷ 9 ∷ []) ∷ []) ≡ false }
    ensures del { is_parameter ((127 ∷ []) ∷ []) ≡ false }
    ensures two { is_parameter (codes "a" ∷ codes "b" ∷ []) ≡ false }
    ensures kept { parameter_of Coding.Aesgcm (codes "a" ∷ []) ≡ codes "a" }
    ensures dropped { parameter_of Coding.Aes128gcm (codes "a" ∷ []) ≡ [] }
{}
