//! Which rows are sent next: ten at a time, those with a topic and those without.
ghost use Rattle.std.specs.Prelude.{◌≡◌, IfOk, OnOk};
ghost use Rattle.push_model.specs.Rows.{is_unsent, is_kind, is_next, row_page, remains};
ghost use Rattle.message_rows.specs.Pages.{page_with};

use push_model::{IdList, NoMemory, Pages, Row};
use std::alloc::Global;

/// How many messages a page has at most.
const PAGE: usize = 10;

fn is_unsent(sent: &IdList, row: &Row) -> bool
    ensures { result ≡ is_unsent sent.now row.now }
{
    !sent.has(row.message.message().id)
}

fn is_kind(topic: bool, row: &Row) -> bool
    ensures { result ≡ is_kind topic row.now }
{
    row.message.message().ask.terms.topic.is_some() == topic
}

// whether the row has a topic or not, as is asked for, and wasn't sent
fn is_next(topic: bool, sent: &IdList, row: &Row) -> bool
    ensures { result ≡ is_next topic sent.now row.now }
{
    is_kind(topic, row) && is_unsent(sent, row)
}

/// The messages of the first ten rows, with a topic or without, that weren't sent.
#[tactic(auto, using(crate::proofs::PageLemmas::page_more))]
pub(crate) fn row_page(
    alloc: Global,
    topic: bool,
    sent: &IdList,
    rows: &[Row],
) -> Result<Pages, NoMemory>
    ensures { IfOk result (λ page. page ≡ row_page topic sent.now rows.now) }
{
    let mut page = Pages::new(alloc);
    for row in rows {
        add_next(&mut page, topic, sent, row)?;
    }
    Ok(page)
}

// adds the row's message to a page that has room, if it is to be sent next
fn add_next(page: &mut Pages, topic: bool, sent: &IdList, row: &Row) -> Result<(), NoMemory>
    ensures { OnOk result (page.new ≡ page_with topic sent.now row.now page.old) }
{
    if page.len() >= PAGE || !is_next(topic, sent, row) {
        return Ok(());
    }
    page.push(row.message.share()?)
}

/// Whether some row, with a topic or without, wasn't sent.
pub(crate) fn remains(topic: bool, sent: &IdList, rows: &[Row]) -> bool
    ensures { result ≡ remains topic sent.now rows.now }
{
    rows.iter().any(|row| is_next(topic, sent, row))
}
