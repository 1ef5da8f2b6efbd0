//! Passes for further callers.
ghost use Rattle.std.specs.Prelude.{◌≡◌, ◌↔◌, ℕ, ◌+◌, false, [], ◌∷◌, ◌++◌, IsTrue};
ghost use Rattle.push_model.specs.MailWords.{IsLegalMail};
ghost use Rattle.turn_board.specs.Numbers.{has, longer};
ghost use Rattle.turn_board.specs.Views.{longer_each, mail_at};
ghost use Rattle.turn_board.specs.Passes.{IsPassOf, IsSamePass, IsUnmoved, IsAlone, IsLegalPass, IsSound, HasPart, pass_number, pass_numbers, pass_first, pass_seen, pass_own, pass_own_mail, pass_mail, pass_counts, pass_counted};

use crate::object::Object;
use crate::pass::{Board, Pass};
use crate::seats;
use std::sync::Wait;

impl<T: Object> Pass<T> {
    /// The number that signs the pass's entries and mail.
    pub fn number(&self) -> u64
        ensures { result ≡ pass_number self.now }
    {
        self.number
    }

    /// Does nothing. It tells what always holds of a pass.
    pub fn is_sound(&self)
        ensures { ∥ IsSound T.run T.proper self.now ∥₁ }
    {}
}

impl<T: Object> Board<T> {
    /// A pass for another caller, which has seen as much and has no entry and no mail of its own. Its number is one that no other
    /// pass has. It takes no memory, and may wait where 2^63 numbers were drawn or others draw one.
    pub fn split<R: Wait>(&self, rt: &R, pass: &mut Pass<T>) -> Pass<T>
        requires { IsPassOf self.now pass.old }
        ensures pass { IsSamePass pass.old pass.new × IsUnmoved pass.old pass.new }
        ensures new { IsPassOf self.now result × (pass_first result ≡ pass_first pass.old) × IsUnmoved pass.old result }
        ensures number { (pass_numbers result ≡ pass_number result ∷ []) × (has (pass_numbers pass.old) (pass_number result) ≡ false) }
        ensures none { (pass_own result ≡ []) × ((slot : ℕ) → pass_own_mail result slot ≡ []) }
        ensures counted { (pass_counted pass.new ≡ 0) × (pass_counted result ≡ 0) × (pass_counts pass.new ≡ pass_counts pass.old) × (pass_counts result ≡ 0) }
    {
        let number = seats::draw_number(rt, &self.table, &mut pass.seat);
        let seat = seats::split(&self.table, &mut pass.seat);
        Pass {
            seat,
            number,
            joined: 1,
        }
    }

    /// Takes in another pass of the board: the longer of the two beginnings of each list that they have seen, and the
    /// numbers of both, so that the entries of both are the pass's own. It keeps its number. What it then has seen is legal.
    pub fn join(&self, pass: &mut Pass<T>, other: Pass<T>)
        requires { IsPassOf self.now pass.old × IsPassOf self.now other }
        ensures pass { IsPassOf self.now pass.new × (pass_number pass.new ≡ pass_number pass.old) × (pass_first pass.new ≡ pass_first pass.old) }
        ensures numbers { pass_numbers pass.new ≡ pass_numbers pass.old ++ pass_numbers other }
        ensures seen { pass_seen pass.new ≡ longer (pass_seen pass.old) (pass_seen other) }
        ensures mail { pass_mail pass.new ≡ longer_each (pass_mail pass.old) (pass_mail other) }
        ensures parts { HasPart pass.new pass.old × HasPart pass.new other }
        ensures legal { IsLegalPass T.run T.proper pass.new }
        ensures legal_mail { (slot : ℕ) → IsLegalMail (mail_at (pass_mail pass.new) slot) }
        ensures counted { (pass_counted pass.new ≡ 0) × (pass_counts pass.new ≡ pass_counts pass.old) }
    {
        let Pass {
            seat,
            number: _,
            joined,
        } = other;
        seats::join(&self.table, &mut pass.seat, seat);
        pass.joined += joined;
    }

    /// Whether every other pass was joined into this one, itself or by way of others, at the moment of this call's count
    /// of the numbers that were drawn.
    pub fn alone(&self, pass: &mut Pass<T>) -> bool
        requires { IsPassOf self.now pass.old }
        ensures pass { IsSamePass pass.old pass.new × IsUnmoved pass.old pass.new }
        ensures counted { pass_counts pass.new ≡ pass_counts pass.old + 1 }
        ensures alone { IsTrue result ↔ IsAlone pass.new }
    {
        let drawn = seats::count(&self.table, &mut pass.seat);
        drawn == pass.joined
    }
}
