//! One or more shards, as one caller sees them.
ghost use Rattle.std.specs.Prelude.{◌≡◌, ◌⊎◌, ℕ, ◌<◌, [], ◌∷◌, true, IfOk, OnOk, OnErr};
ghost use Rattle.push_model.specs.Kinds.{takes_memory};
ghost use Rattle.push_model.specs.Steps.{proper};
ghost use Rattle.push_model.specs.Replies.{replies_to};
ghost use Rattle.push_model.specs.Worlds.{start};
ghost use Rattle.push_model.specs.Accounting.{IsAccounted};
ghost use Rattle.push_model.specs.Caring.{is_cared};
ghost use Rattle.push_model.specs.MailWords.{bit_of, mail_of};
ghost use Rattle.push_model.specs.DeskViews.{Calls, EndsWith, Mails, MailEndsWith, made, world_at, written};
ghost use Rattle.push_model.specs.declared.mail.MailChange.TheVariants.{Post, Taken};

use crate::entry::NoMemory;
use crate::ids::{NodeId, Uaid};
use crate::mail::Mail;
use crate::reply::Reply;
use crate::step::Step;
use std::alloc::Global;

/// One or more shards, as one caller sees them: their histories so far as it has seen them, of which some entries are its
/// own, and the mail lists of their nodes. The shards, the boards that they are on and all numbers stay through every call.
pub trait Desks {
    ghost use Rattle.push_model.specs.DeskViews.{DeskView};

    /// What the caller sees.
    ghost view: { Self → DeskView };

    /// How many shards there are: 1 or 16.
    fn count(&self) -> u8
        ensures value { result ≡ (view self.now).size }
        ensures either { (result ≡ 1) ⊎ (result ≡ 16) };

    /// The number with which entries on that shard are signed.
    fn pass(&self, shard: u8) -> u64
        requires { shard < (view self.now).size }
        ensures { result ≡ (view self.now).number shard };

    /// Makes the step on that shard. The reply is that of the entry that comes last in what is seen of the shard, and one
    /// that this kind of step can have. `NoMemory` comes only at a step that may want memory, and then nothing is seen
    /// that wasn't before. Where the shard began without users its history is accounted for; in the world that it leaves
    /// each stored row that a routed session wasn't sent is covered. Mail stays.
    fn call(&mut self, alloc: Global, shard: u8, asked: Step) -> Result<Reply, NoMemory>
        requires within { shard < (view self.old).size }
        requires allowed { proper ((view self.old).number shard) asked ≡ true }
        ensures made { IfOk result (λ reply. Calls (view self.old) (view self.new) (made shard asked reply ∷ [])) }
        ensures last { IfOk result (λ reply. EndsWith (view self.old) (view self.new) shard asked reply) }
        ensures fits { IfOk result (λ reply. replies_to asked reply ≡ true) }
        ensures err { OnErr result (Calls (view self.old) (view self.new) []) }
        ensures memory { OnErr result (takes_memory asked ≡ true) }
        ensures accounted { OnOk result ((number next : ℕ) → (view self.new).opened shard ≡ start number next → IsAccounted (start number next) ((view self.new).seen shard)) }
        ensures cared { is_cared (world_at (view self.new) shard) ≡ true }
        ensures mail { Mails (view self.old) (view self.new) [] };

    /// Sets the user's bit in the mail word of that shard and node. It takes no memory.
    fn post(&mut self, shard: u8, node: NodeId, uaid: Uaid)
        requires { shard < (view self.old).size }
        ensures calls { Calls (view self.old) (view self.new) [] }
        ensures mail { Mails (view self.old) (view self.new) (written shard node (Post (bit_of uaid)) ∷ []) }
        ensures last { MailEndsWith (view self.old) (view self.new) shard node (Post (bit_of uaid)) };

    /// Takes all bits of the mail word of that shard and node: `Quiet` exactly where none was set. It takes no memory.
    fn take_mail(&mut self, shard: u8, node: NodeId) -> Mail
        requires { shard < (view self.old).size }
        ensures calls { Calls (view self.old) (view self.new) [] }
        ensures mail { (bits : ℕ) × (result ≡ mail_of bits) × Mails (view self.old) (view self.new) (written shard node (Taken bits) ∷ []) × MailEndsWith (view self.old) (view self.new) shard node (Taken bits) };
}
