//! Steps on the words of mail.
ghost use Rattle.std.specs.Prelude.{◌≡◌, ℕ, ◌<◌, true, length};
ghost use Rattle.push_model.specs.declared.mail.MailChange.TheVariants.{Post, Taken};
ghost use Rattle.push_model.specs.MailWords.{mail_entry};
ghost use Rattle.turn_board.specs.declared.view.Place.TheVariants.{Free};
ghost use Rattle.turn_board.specs.Numbers.{has};
ghost use Rattle.turn_board.specs.Plays.{HasWritten};
ghost use Rattle.turn_board.specs.Seats.{IsSameSeat, IsSeatOf};

use crate::object::Object;
use crate::plays::{WritesMail, Written};
use crate::rule::{BoardSeat, BoardTable, MAIL};
use std::marker::Brand;

// Sets the bits, and writes what `E` names. The number is there for the contract.
fn post_as<T: Object, E: Written>(
    table: &BoardTable<T>,
    seat: &mut BoardSeat<T>,
    by: u64,
    slot: u8,
    bits: u64,
) -> u64
    requires table { IsSeatOf table.now.shared.table_id seat.old }
    requires free { (seat.old.me.0.place ≡ Free) × (length seat.old.me.0.spare ≡ 0) × (has seat.old.me.0.numbers by ≡ true) }
    requires slot { slot < 8 }
    requires written { (n : ℕ) → E.written n ≡ mail_entry by (Post bits) }
    ensures same { IsSameSeat seat.old seat.new }
    ensures written { HasWritten slot (mail_entry by (Post bits)) result seat.old.me seat.new.me }
{
    let _ = by;
    table
        .shared
        .fetch_or::<WritesMail<E>>(seat, usize::from(slot) + MAIL, bits)
}

// Takes the bits, and writes what `E` names. The number is there for the contract.
fn take_as<T: Object, E: Written>(
    table: &BoardTable<T>,
    seat: &mut BoardSeat<T>,
    by: u64,
    slot: u8,
) -> u64
    requires table { IsSeatOf table.now.shared.table_id seat.old }
    requires free { (seat.old.me.0.place ≡ Free) × (length seat.old.me.0.spare ≡ 0) × (has seat.old.me.0.numbers by ≡ true) }
    requires slot { slot < 8 }
    requires written { (n : ℕ) → E.written n ≡ mail_entry by (Taken n) }
    ensures same { IsSameSeat seat.old seat.new }
    ensures written { HasWritten slot (mail_entry by (Taken result)) result seat.old.me seat.new.me }
{
    let _ = by;
    table
        .shared
        .swap::<WritesMail<E>>(seat, usize::from(slot) + MAIL, 0)
}

/// Sets these bits of a slot's mail, and returns what was out before.
pub fn post<T: Object>(
    table: &BoardTable<T>,
    seat: &mut BoardSeat<T>,
    by: u64,
    slot: u8,
    bits: u64,
) -> u64
    requires table { IsSeatOf table.now.shared.table_id seat.old }
    requires free { (seat.old.me.0.place ≡ Free) × (length seat.old.me.0.spare ≡ 0) × (has seat.old.me.0.numbers by ≡ true) }
    requires slot { slot < 8 }
    ensures same { IsSameSeat seat.old seat.new }
    ensures written { HasWritten slot (mail_entry by (Post bits)) result seat.old.me seat.new.me }
{
    post_as::<T, Brand>(table, seat, by, slot, bits)
}

/// Takes all bits of a slot's mail.
pub fn take<T: Object>(table: &BoardTable<T>, seat: &mut BoardSeat<T>, by: u64, slot: u8) -> u64
    requires table { IsSeatOf table.now.shared.table_id seat.old }
    requires free { (seat.old.me.0.place ≡ Free) × (length seat.old.me.0.spare ≡ 0) × (has seat.old.me.0.numbers by ≡ true) }
    requires slot { slot < 8 }
    ensures same { IsSameSeat seat.old seat.new }
    ensures written { HasWritten slot (mail_entry by (Taken result)) result seat.old.me seat.new.me }
{
    take_as::<T, Brand>(table, seat, by, slot)
}
