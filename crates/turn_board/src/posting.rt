//! Mail of a board: bits for the eight slots. Neither call takes a turn, takes memory, or waits for anybody.
ghost use Rattle.std.specs.Prelude.{◌≡◌, ℕ, ◌<◌};
ghost use Rattle.push_model.specs.declared.mail.MailChange.TheVariants.{Post, Taken};
ghost use Rattle.push_model.specs.MailWords.{mail_of};
ghost use Rattle.turn_board.specs.Passes.{IsPassOf, IsSamePass, SlotEndsWith, pass_number, pass_numbers, pass_seen, pass_mail, pass_counts, pass_counted};

use crate::mail_words;
use crate::object::Object;
use crate::pass::{Board, Pass};
use push_model::Mail;

impl<T: Object> Board<T> {
    /// Posts the bits to the slot: they are out until someone takes them.
    pub fn post(&self, pass: &mut Pass<T>, slot: u8, bits: u64)
        requires own { IsPassOf self.now pass.old }
        requires slot { slot < 8 }
        ensures pass { IsSamePass pass.old pass.new × (pass_seen pass.new ≡ pass_seen pass.old) }
        ensures counted { (pass_counts pass.new ≡ pass_counts pass.old) × (pass_counted pass.new ≡ pass_counted pass.old) }
        ensures mail { SlotEndsWith slot (Post bits) (pass_number pass.old) (pass_numbers pass.old) (pass_mail pass.old) (pass_mail pass.new) }
    {
        mail_words::post(&self.table, &mut pass.seat, pass.number, slot, bits);
    }

    /// Takes all bits of the slot: `Quiet` exactly where none was out.
    pub fn take_mail(&self, pass: &mut Pass<T>, slot: u8) -> Mail
        requires own { IsPassOf self.now pass.old }
        requires slot { slot < 8 }
        ensures pass { IsSamePass pass.old pass.new × (pass_seen pass.new ≡ pass_seen pass.old) }
        ensures counted { (pass_counts pass.new ≡ pass_counts pass.old) × (pass_counted pass.new ≡ pass_counted pass.old) }
        ensures mail { (bits : ℕ) × (result ≡ mail_of bits) × SlotEndsWith slot (Taken bits) (pass_number pass.old) (pass_numbers pass.old) (pass_mail pass.old) (pass_mail pass.new) }
    {
        let bits = mail_words::take(&self.table, &mut pass.seat, pass.number, slot);
        Mail::of(bits)
    }
}
