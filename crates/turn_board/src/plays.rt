//! What each step on a board tells the seat that makes it.

use crate::object::Object;
use crate::view::{Home, View};
use atomic_table::{Join, Play, Split};
use std::marker::{Brand, PhantomData};

/// Draws a ticket.
pub struct DrawTicket;

impl<W, S, R> Play<Option<Home<W>>, View<W, S, R>> for DrawTicket {
    ghost use Rattle.turn_board.specs.Plays.{Draws};

    ghost then = { Draws };
}

/// Looks which ticket is served.
pub struct Look<T> {
    of: PhantomData<T>,
}

impl<T: Object> Play<Option<Home<T>>, View<T, T::Step, T::Reply>> for Look<T> {
    ghost use Rattle.turn_board.specs.Plays.{Looks};

    ghost then = { Looks T.run T.proper };
}

/// Which entries a step adds. Each call of a program picks them.
pub trait Added<S, R> {
    ghost use Rattle.std.specs.Prelude.{List};
    ghost use Rattle.push_model.specs.declared.entry.Entry.{Entry};

    ghost added: { List (Entry S R) };
}

impl<S, R> Added<S, R> for Brand {
    ghost use Rattle.std.specs.Prelude.{[]};

    ghost added = { [] };
}

/// Adds entries to the history.
pub struct Adds<E> {
    of: PhantomData<E>,
}

impl<W, S, R, E: Added<S, R>> Play<Option<Home<W>>, View<W, S, R>> for Adds<E> {
    ghost use Rattle.turn_board.specs.Plays.{AddsEntries};

    ghost then = { AddsEntries E.added };
}

/// Ends a turn.
pub struct EndTurn;

impl<W, S, R> Play<Option<Home<W>>, View<W, S, R>> for EndTurn {
    ghost use Rattle.turn_board.specs.Plays.{Ends};

    ghost then = { Ends };
}

/// Changes a word of which the rule says nothing.
pub struct Stay;

impl<W, S, R> Play<Option<Home<W>>, View<W, S, R>> for Stay {
    ghost use Rattle.turn_board.specs.Plays.{Stays};

    ghost then = { Stays };
}

/// Draws a number for a new seat.
pub struct DrawNumber;

impl<W, S, R> Play<Option<Home<W>>, View<W, S, R>> for DrawNumber {
    ghost use Rattle.turn_board.specs.Plays.{DrawsNumber};

    ghost then = { DrawsNumber };
}

/// Counts the numbers that were drawn.
pub struct Count;

impl<W, S, R> Play<Option<Home<W>>, View<W, S, R>> for Count {
    ghost use Rattle.turn_board.specs.Plays.{Counts};

    ghost then = { Counts };
}

/// Compares what was seen with what the parts of a join had seen.
pub struct Compare<T> {
    of: PhantomData<T>,
}

impl<T: Object> Play<Option<Home<T>>, View<T, T::Step, T::Reply>> for Compare<T> {
    ghost use Rattle.turn_board.specs.Plays.{Compares};

    ghost then = { Compares T.run T.proper };
}

/// Cuts a seat in two, or makes two seats one.
pub struct Halves;

impl<W, S, R> Split<View<W, S, R>> for Halves {
    ghost use Rattle.turn_board.specs.Views.{kept_half, given_half};

    ghost left = { kept_half };

    ghost right = { given_half };
}

impl<W, S, R> Join<View<W, S, R>> for Halves {
    ghost use Rattle.turn_board.specs.Views.{joined, spent_view};

    ghost both = { joined };

    ghost spent = { spent_view };
}

/// What a step writes to a mail list where it found these bits. Each call of a program picks it.
pub trait Written {
    ghost use Rattle.std.specs.Prelude.{ℕ};
    ghost use Rattle.push_model.specs.declared.mail.MailEntry.{MailEntry};

    ghost written: { ℕ → MailEntry };
}

impl Written for Brand {
    ghost use Rattle.push_model.specs.declared.mail.MailChange.TheVariants.{Post};
    ghost use Rattle.push_model.specs.MailWords.{mail_entry};

    ghost written = { λ n. mail_entry 0 (Post 0) };
}

/// Writes to a slot's mail list.
pub struct WritesMail<E> {
    of: PhantomData<E>,
}

impl<W, S, R, E: Written> Play<Option<Home<W>>, View<W, S, R>> for WritesMail<E> {
    ghost use Rattle.turn_board.specs.Plays.{Writes};

    ghost then = { Writes E.written };
}
