//! Laws of versions.
ghost use Rattle.std.specs.Prelude.{◌≡◌, ℕ, ◌-◌, ◌^◌, ◌<◌, List, Some, codes};
ghost use Rattle.push_model.specs.declared.ids.MsgId.{MsgId};
ghost use Rattle.push_model.specs.Versions.{version_text, version_of};

/// Each message is read from its version.
pub fn versions_are_read()
    ensures { (i : MsgId) → i.shard < 2 ^ 8 → i.number < 2 ^ 64 → version_of (version_text i) ≡ Some i }
{}

/// A message is read from its version alone.
pub fn only_versions_are_read()
    ensures { (text : List ℕ) (i : MsgId) → version_of text ≡ Some i → text ≡ version_text i }
{}

/// The first message of shard 0, and a late one of shard 15, are named so.
pub fn versions_look_so()
    ensures first { version_text (record { shard = 0; number = 1 }) ≡ codes "00-0000000000000001" }
    ensures late { version_text (record { shard = 15; number = 2 ^ 63 - 1 }) ≡ codes "0f-7fffffffffffffff" }
{}
